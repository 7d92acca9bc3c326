//! Tokens of bytes that come one at a time.
ghost use Rattle.std.specs.Prelude.{◌≡◌, ℕ, ◌<◌, ◌≤◌, ◌^◌, ◌+◌, ◌-◌, ◌∷◌, ◌++◌, true, Some, List, [], IfOk, IsTrue, IsFalse, length, take};
ghost use Rattle.markup.specs.Token.{Token};
ghost use Rattle.markup.specs.inner.Tokenizers.{is_plain_in};

use crate::draft::Draft;
use crate::scan::{Ended, Position, Scan, Turn};
use lexical_core::{Rule, Utf8, Utf8Step};
use std::alloc::{AllocError, Global};
use std::mem;

/// The greatest length in bytes of a tag of XML.
pub(crate) const TAG_LIMIT: u64 = 1_048_576;

/// As many bytes as are taken of an input at most: with this limit a tag may have any length.
pub(crate) const NO_LIMIT: u64 = 1 << 40;

/// What a byte gives.
#[derive(Clone, Copy)]
pub(crate) enum Progress {
    /// The token goes on.
    More,
    /// The byte has ended this token. Where it is a tag, what it said is still held.
    Token(Ended),
    /// The byte shows that no token goes on so.
    Refused(Rule),
}

/// The tokens that a byte ends, since they do not go on with it.
#[derive(Clone, Copy)]
pub(crate) enum Settled {
    /// None: the byte belongs to the open token.
    Nothing,
    /// A CR that is a line end.
    Return,
    /// A `]` of a CDATA section.
    Bracket,
    /// Two of them.
    Brackets,
}

/// What is open where the input ends.
#[derive(Clone, Copy)]
pub(crate) enum Finish {
    /// Nothing.
    Nothing,
    /// A CR, which is a line end.
    Return,
    /// A token that has not ended.
    Open,
}

/// A reader of tokens that takes a byte at a time.
#[derive(Drop)]
pub(crate) struct Tokenizer {
    pub(crate) alloc: Global,
    /// The greatest length of a tag in bytes.
    limit: u64,
    utf8: Utf8Step,
    position: Position,
    scan: Scan,
    draft: Draft,
    /// The place of the open token's first byte.
    start: u64,
    /// The number of bytes so far.
    place: u64,
}

/// Whether the byte is a character by itself, in text or in a CDATA section (XML 1.0 §2.4, §2.7):
/// one from 0x20 to 0x7F that is not `<` or `&`, and in a CDATA section not `]`.
#[inline]
fn is_plain(is_text: bool, byte: u8) -> bool
    ensures { result ≡ is_plain_in is_text byte }
{
    byte >= 0x20 && byte <= 0x7F && byte != b'<' && byte != b'&' && (is_text || byte != b']')
}

impl Tokenizer {
    ghost use Rattle.markup.specs.inner.AsideTexts.{after_token};
    ghost use Rattle.markup.specs.inner.Inside.{is_inside, may_be_tag, GoesOver, GoesByOne, GoesByAll, GoesInside};
    ghost use Rattle.markup.specs.Marks.{IsLimit};
    ghost use Rattle.markup.specs.inner.Drafts.{draft_size};
    ghost use Rattle.markup.specs.inner.TokenRules.{is_cdata};
    ghost use Rattle.markup.specs.inner.Tokenizers.{bound_outcome, token_ended, without_draft, outcome, after_character, AdvancedBy, AdvancesBy, IsTokenOpen, at_next_token, settle_character, SettlesBy, open_at, FinishesBy, starts_plain, TakesPlain, is_ready, is_in_text, after_whole_tokens};

    /// A reader before the first byte, of tags of at most so many bytes. It takes no memory.
    pub(crate) fn new(alloc: Global, limit: u64) -> Tokenizer
        requires { IsLimit limit }
        ensures opens { IsTokenOpen limit result [] [] }
        ensures place { result.place ≡ 0 }
    {
        Tokenizer {
            alloc,
            limit,
            utf8: Utf8Step::new(),
            position: Position::Start,
            scan: Scan::Begin(Position::Start),
            draft: Draft::new(alloc),
            start: 0,
            place: 0,
        }
    }

    /// The place of the open token's first byte.
    #[inline]
    pub(crate) fn start(&self) -> u64
        ensures { result ≡ self.now.start }
    {
        self.start
    }

    /// The number of bytes so far.
    pub(crate) fn place(&self) -> u64
        ensures { result ≡ self.now.place }
    {
        self.place
    }

    /// How many bytes are held for the open token.
    pub(crate) fn held(&self) -> u64
        ensures { draft_size self.now.draft < 2 ^ 64 → result ≡ draft_size self.now.draft }
    {
        self.draft.held()
    }

    /// Whether the open token stands in a CDATA section (XML 1.0 §2.7).
    #[inline]
    pub(crate) fn in_cdata(&self) -> bool
        ensures { result ≡ is_cdata self.now.position }
    {
        matches!(self.position, Position::Cdata)
    }

    /// The next token begins behind one that opens and closes nothing.
    fn restart(&mut self)
        ensures { self.new ≡ at_next_token self.old }
    {
        self.position = self.position.behind(Ended::LineEnd);
        self.scan = Scan::Begin(self.position);
        self.start = self.place;
    }

    /// Ends what does not go on with the byte.
    #[inline]
    fn settle_open(&mut self, byte: u8) -> Settled
        ensures value { result ≡ (settle_character self.old byte).0 }
        ensures after { self.new ≡ (settle_character self.old byte).1 }
    {
        match self.scan {
            Scan::AfterReturn => {
                if byte == b'\n' {
                    Settled::Nothing
                } else {
                    self.restart();
                    Settled::Return
                }
            }
            Scan::Bracket => {
                if byte == b']' {
                    Settled::Nothing
                } else {
                    self.restart();
                    Settled::Bracket
                }
            }
            Scan::Brackets => {
                if byte == b'>' {
                    Settled::Nothing
                } else if byte == b']' {
                    self.scan = Scan::Bracket;
                    self.start = self.place.saturating_sub(1);
                    Settled::Bracket
                } else {
                    self.restart();
                    Settled::Brackets
                }
            }
            _ => Settled::Nothing,
        }
    }

    /// Ends a CR, or brackets in a CDATA section, that the byte does not go on with. The byte is
    /// not taken.
    #[inline]
    pub(crate) fn settle(&mut self, byte: u8) -> Settled
        ensures settles { SettlesBy self.old self.new byte result }
        ensures place { self.new.place ≡ self.old.place }
    {
        self.settle_open(byte)
    }

    /// A tag that has not ended may not have all the bytes that it may have.
    #[inline]
    fn bounded(&self) -> Progress
        ensures { outcome result self.now ≡ (bound_outcome self.now, self.now) }
    {
        if self.scan.is_tag() && self.place.saturating_sub(self.start) >= self.limit {
            Progress::Refused(Rule::BadMarkup)
        } else {
            Progress::More
        }
    }

    /// The token has ended.
    #[inline]
    fn end(&mut self, token: Ended) -> Progress
        ensures { outcome result self.new ≡ token_ended self.old token }
    {
        self.position = self.position.behind(token);
        self.scan = Scan::Begin(self.position);
        self.start = self.place;
        Progress::Token(token)
    }

    /// What the tag said that has ended.
    #[inline]
    pub(crate) fn take_draft(&mut self) -> Draft
        ensures value { result ≡ self.old.draft }
        ensures after { self.new ≡ without_draft self.old }
    {
        mem::replace(&mut self.draft, Draft::new(self.alloc))
    }

    /// Takes a character.
    fn character(&mut self, c: char) -> Result<Progress, AllocError>
        ensures { IfOk result (λ p. outcome p self.new ≡ after_character self.old c) }
    {
        match self.scan.turn(c) {
            Turn::Goes(scan) => {
                self.draft.note(self.scan, scan, c, self.alloc)?;
                self.scan = scan;
                Ok(self.bounded())
            }
            Turn::Whole(ended) => Ok(self.end(ended)),
            Turn::Stuck => Ok(Progress::Refused(self.scan.stuck_rule(c))),
        }
    }

    /// What is open where the input ends.
    #[inline]
    fn open(&self) -> Finish
        ensures { result ≡ open_at self.now.scan self.now }
    {
        match self.scan {
            Scan::AfterReturn => Finish::Return,
            _ => {
                if self.place == self.start {
                    Finish::Nothing
                } else {
                    Finish::Open
                }
            }
        }
    }

    /// The end of the input: it ends a CR, and cuts a token that has not ended.
    #[inline]
    pub(crate) fn finish(&self) -> Finish
        ensures { FinishesBy self.now result }
    {
        self.open()
    }

    /// Whether no token is open and this byte is one by itself.
    #[inline]
    fn starts_plain(&self, byte: u8) -> bool
        ensures { result ≡ starts_plain self.now byte }
    {
        self.scan.is_between() && self.place == self.start && is_plain(self.scan.is_text(), byte)
    }

    /// Takes a byte that is a token by itself, where none is open; else nothing changes. It does
    /// what `settle` and `advance` do, with no draft to hand out.
    #[inline]
    pub(crate) fn take_plain(&mut self, byte: u8) -> bool
        requires { self.old.place < 2 ^ 40 }
        ensures taken { IsTrue result → TakesPlain self.old self.new byte }
        ensures same { IsFalse result → self.new ≡ self.old }
    {
        if !self.starts_plain(byte) {
            return false;
        }
        self.place += 1;
        self.start = self.place;
        true
    }

    /// Whether no token is open, and one begins behind another that is not the byte order mark.
    #[inline]
    pub(crate) fn is_ready(&self) -> bool
        ensures { result ≡ is_ready self.now }
    {
        self.scan.is_between() && self.place == self.start
    }

    /// Whether no token is open, and one begins behind another in no CDATA section.
    #[inline]
    pub(crate) fn is_in_text(&self) -> bool
        ensures { result ≡ is_in_text self.now }
    {
        self.scan.is_text() && self.place == self.start
    }

    /// Passes over so many bytes, which are whole tokens.
    #[inline]
    pub(crate) fn pass(&mut self, count: u64)
        requires { self.old.place + count ≤ 2 ^ 40 }
        ensures { self.new ≡ after_whole_tokens self.old count }
    {
        self.place += count;
        self.start = self.place;
    }

    /// Passes over a token of so many bytes, where none is open.
    #[inline]
    pub(crate) fn pass_token(&mut self, token: Ended, count: u64)
        requires { self.old.place + count ≤ 2 ^ 40 }
        ensures { self.new ≡ after_token self.old token count }
    {
        self.position = self.position.behind(token);
        self.scan = Scan::Begin(self.position);
        self.place += count;
        self.start = self.place;
    }

    /// Takes a byte: it gives the next token where it ends it, and the next fault where it shows
    /// it. A CR, or brackets in a CDATA section, that the byte does not go on with are settled
    /// before.
    pub(crate) fn advance(&mut self, byte: u8) -> Result<Progress, AllocError>
        requires { self.old.place < 2 ^ 40 }
        ensures advances { IfOk result (λ p. AdvancesBy self.old (outcome p self.new).1 byte (outcome p self.new).0) }
        ensures place { IfOk result (λ _. self.new.place ≡ self.old.place + 1) }
    {
        self.take(byte)
    }

    /// Takes a byte.
    fn take(&mut self, byte: u8) -> Result<Progress, AllocError>
        requires { self.old.place < 2 ^ 40 }
        ensures { IfOk result (λ p. AdvancedBy self.old (outcome p self.new).1 byte (outcome p self.new).0) }
    {
        self.place += 1;
        match self.utf8.take(byte) {
            Utf8::More => Ok(self.bounded()),
            Utf8::Bad => Ok(Progress::Refused(Rule::BadUtf8)),
            Utf8::Char(c) => self.character(c),
        }
    }

    /// Takes bytes at the front of the piece that go on with the open token and end none, and
    /// answers how many they are. Where it is 0, nothing changes.
    pub(crate) fn take_inside(&mut self, piece: &[u8]) -> Result<usize, AllocError>
        requires { self.old.place + length piece.now ≤ 2 ^ 40 }
        ensures none { IfOk result (λ n. n ≡ 0 → self.new ≡ self.old) }
        ensures within { IfOk result (λ n. n ≤ length piece.now) }
        ensures inside { IfOk result (λ n. 0 < n → GoesInside self.old self.new (take n piece.now)) }
        ensures all { (more rest : List ℕ) → piece.now ≡ more ++ rest → GoesByAll self.old more → is_inside self.old.scan ≡ true → self.old.utf8 ≡ Some [] → (self.old.place - self.old.start) + length more < self.old.limit → IfOk result (λ n. length more ≤ n) }
        ensures place { IfOk result (λ n. self.new.place ≡ self.old.place + n) }
    {
        if !self.scan.is_inside() || !self.utf8.is_whole() {
            return Ok(0);
        }
        let room = self.room(piece.len());
        let (front, _) = piece.split_at(room);
        let count = self.go_over(front)?;
        self.place += count as u64;
        Ok(count)
    }

    /// How many of so many bytes the open token may take and go on: a tag that has not ended has
    /// fewer bytes than its limit.
    fn room(&self, count: usize) -> usize
        ensures within { result ≤ count }
        ensures short { may_be_tag self.now.scan ≡ true → 0 < result → (self.now.place - self.now.start) + result < self.now.limit }
        ensures all { (n : ℕ) → n ≤ count → (self.now.place - self.now.start) + n < self.now.limit → n ≤ result }
    {
        if !self.scan.may_be_tag() {
            return count;
        }
        let begun = self.place.saturating_sub(self.start);
        let left = self.limit.saturating_sub(begun).saturating_sub(1);
        if count as u64 <= left {
            count
        } else {
            left as usize
        }
    }

    /// Goes over the bytes at the front of the piece with which the open token goes on.
    fn go_over(&mut self, piece: &[u8]) -> Result<usize, AllocError>
        ensures within { IfOk result (λ n. n ≤ length piece.now) }
        ensures over { IfOk result (λ n. GoesOver self.old self.new (take n piece.now)) }
        ensures all { (more rest : List ℕ) → piece.now ≡ more ++ rest → GoesByAll self.old more → IfOk result (λ n. length more ≤ n) }
    {
        let mut rest = piece;
        loop {
            let count = match self.go_on(rest) {
                Ok(count) => count,
                Err(error) => return Err(error),
            };
            if count == 0 {
                return Ok(piece.len() - rest.len());
            }
            let (_, behind) = rest.split_at(count);
            rest = behind;
        }
    }

    /// Goes over the bytes at the front of the piece that leave the scan as it is, or over the first
    /// byte, where the open token goes on with it.
    fn go_on(&mut self, piece: &[u8]) -> Result<usize, AllocError>
        ensures within { IfOk result (λ n. n ≤ length piece.now) }
        ensures over { IfOk result (λ n. GoesOver self.old self.new (take n piece.now)) }
        ensures all { (byte : ℕ) (rest : List ℕ) → piece.now ≡ byte ∷ rest → GoesByOne self.old byte → IfOk result (λ n. 0 < n) }
    {
        let count = self.scan.still_length(piece);
        if count == 0 {
            return self.go_on_by_one(piece);
        }
        let (front, _) = piece.split_at(count);
        self.draft.note_all(self.scan, front)?;
        Ok(count)
    }

    /// Goes over the first byte, where it is a character with which the open token goes on.
    fn go_on_by_one(&mut self, piece: &[u8]) -> Result<usize, AllocError>
        ensures within { IfOk result (λ n. n ≤ length piece.now) }
        ensures over { IfOk result (λ n. GoesOver self.old self.new (take n piece.now)) }
        ensures all { (byte : ℕ) (rest : List ℕ) → piece.now ≡ byte ∷ rest → GoesByOne self.old byte → IfOk result (λ n. 0 < n) }
    {
        let Some((byte, _)) = piece.split_first() else {
            return Ok(0);
        };
        if *byte > 0x7F {
            return Ok(0);
        }
        let c = *byte as char;
        let Turn::Goes(scan) = self.scan.turn(c) else {
            return Ok(0);
        };
        self.draft.note(self.scan, scan, c, self.alloc)?;
        self.scan = scan;
        Ok(1)
    }
}
