//! A reader of XML that takes a byte at a time, or many at once.
ghost use Rattle.std.specs.Prelude.{◌≡◌, ◌<◌, ◌≤◌, ◌^◌, ◌+◌, ◌∷◌, ◌++◌, ℕ, List, [], IfOk, IfErr, OnOk, IsTrue, IsFalse, Some, None, Err, false, length, take};
ghost use Rattle.lexical_core.specs.declared.rule.Rule.TheVariants.{Truncated};
ghost use Rattle.markup.specs.Token.{Token};
ghost use Rattle.markup.specs.Marks.{in_cdata, no_limit, IsLimit};
ghost use Rattle.markup.specs.Faults.{MarkFaultUnder as HasMarkFault};
ghost use Rattle.markup.specs.inner.ScanRuns.{ended_of, draft_of};
ghost use Rattle.markup.specs.inner.Contexts.{IsContext};
ghost use Rattle.markup.specs.inner.TokenRules.{ends_tag};
ghost use Rattle.markup.specs.inner.Tokenizers.{IsAwaited, FinishesBy, without_draft, handed_out};
ghost use Rattle.markup.specs.inner.ReaderSteps.{TellsMore, SettlesEvents, TokenAnswered, return_items};
ghost use Rattle.markup.specs.Events.{Placed};
ghost use Rattle.markup.specs.PlainTags.{open_behind};
ghost use Rattle.markup.specs.EventItems.{Tells};
ghost use Rattle.markup.specs.Reading.{bytes_taken, reader_failure, open_token_held, token_length, HasTaken, HasTakenUnder, HasToldUnder, MayTakeInsideUnder, Keeps, GoesOnUnder, StopsUnder, IsWhollyUnder, EndsEarlyUnder, RunsOutUnder};
ghost use Rattle.markup.specs.inner.Inputs.{Any, Begins, is_return};

mod asides;
mod brackets;
mod line_ends;
mod references;
mod runs;
mod starts;
mod tags;

use crate::context::Context;
use crate::event::Events;
use crate::scan::Ended;
use crate::scope::Stop;
use crate::tokenizer::{Finish, NO_LIMIT, Progress, Settled, TAG_LIMIT, Tokenizer};
use lexical_core::Rule;
use std::alloc::{AllocError, Global};
use std::error::Error;
use std::fmt;

/// A fault of markup: the rule that is broken first, of several at one place the least, and its
/// place in bytes from 0.
#[derive(Clone, Copy, Debug, PartialEq, Eq)]
pub struct MarkFault {
    pub rule: Rule,
    pub place: u64,
}

impl fmt::Display for MarkFault {
    ghost use Rattle.std.specs.Prelude.{Some};
    ghost use Rattle.markup.specs.ErrorTexts.{mark_fault_text};

    ghost output = { λ f. Some (mark_fault_text f) };

    fn fmt<W: fmt::Write>(&self, f: &mut fmt::Formatter<W>) -> fmt::Result {
        write!(f, "{} at {}", self.rule.name(), self.place)
    }
}

impl Error for MarkFault {}

/// Why a reader does not go on.
#[derive(Clone, Copy, Debug, PartialEq, Eq)]
pub enum MarkError {
    /// The bytes have this fault.
    Refused(MarkFault),
    /// There was no memory.
    Memory,
}

impl fmt::Display for MarkError {
    ghost use Rattle.std.specs.Prelude.{Some};
    ghost use Rattle.markup.specs.ErrorTexts.{mark_error_text};

    ghost output = { λ e. Some (mark_error_text e) };

    fn fmt<W: fmt::Write>(&self, f: &mut fmt::Formatter<W>) -> fmt::Result {
        match self {
            MarkError::Refused(fault) => write!(f, "{fault}"),
            MarkError::Memory => write!(f, "out of memory"),
        }
    }
}

impl Error for MarkError {}

/// A reader of the XML profile (XML 1.0, fifth edition, and Namespaces in XML 1.0). It keeps the
/// open token and the names and declarations of the open elements, and nothing of closed ones.
#[derive(Drop)]
pub struct Reader {
    tokenizer: Tokenizer,
    context: Context,
    failed: Option<MarkError>,
}

impl Reader {
    /// A reader before the first byte, of tags of at most 1,048,576 bytes. It takes no memory.
    pub fn new(alloc: Global) -> Reader
        ensures taken { HasTaken result [] [] }
        ensures none { bytes_taken result ≡ 0 }
    {
        Reader::under(alloc, TAG_LIMIT)
    }

    /// A reader before the first byte, of tags of any length: of bytes that are part of something other
    /// than a document in XML. It takes no memory.
    pub fn without_limit(alloc: Global) -> Reader
        ensures taken { HasTakenUnder no_limit result [] [] }
        ensures none { bytes_taken result ≡ 0 }
    {
        Reader::under(alloc, NO_LIMIT)
    }

    /// A reader before the first byte, of tags of at most so many bytes.
    fn under(alloc: Global, limit: u64) -> Reader
        requires { IsLimit limit }
        ensures taken { HasTakenUnder limit result [] [] }
        ensures none { bytes_taken result ≡ 0 }
    {
        Reader {
            tokenizer: Tokenizer::new(alloc, limit),
            context: Context::new(alloc),
            failed: None,
        }
    }

    /// Takes the next byte, of at most 2^40, and appends the events that it shows. It refuses a
    /// fault that no bytes behind it mend, and then appends the events before the fault that were
    /// not told yet; where there is no memory it appends a front of the events. After an error it
    /// gives the same answer to every later call.
    pub fn take(&mut self, byte: u8, out: &mut Events) -> Result<(), MarkError>
        requires { reader_failure self.old ≡ None → bytes_taken self.old < 2 ^ 40 }
        ensures ok { (limit : ℕ) (bytes : List ℕ) (told : List Placed) → HasTakenUnder limit self.old bytes told →
            IfOk result (λ _. GoesOnUnder limit self.new (bytes ++ byte ∷ []) told out.old out.new) }
        ensures err { (limit : ℕ) (bytes : List ℕ) (told : List Placed) → HasTakenUnder limit self.old bytes told →
            IfErr result (λ e. StopsUnder limit (bytes ++ byte ∷ []) told out.old out.new e) }
        ensures failed { IfErr result (λ e. reader_failure self.new ≡ Some e) }
        ensures again { (e : MarkError) → reader_failure self.old ≡ Some e → (result ≡ Err e) × (self.new ≡ self.old) × (out.new ≡ out.old) }
        ensures count { IfOk result (λ _. bytes_taken self.new ≡ bytes_taken self.old + 1) }
    {
        if let Some(error) = self.failed {
            return Err(error);
        }
        let result = self.step(byte, out);
        if let Err(error) = result {
            self.failed = Some(error);
        }
        result
    }

    /// Takes bytes at the front of the piece that go on with the open token and end none: of the names
    /// and values of a tag, of a comment, of an instruction, up to the one that ends it and to the
    /// first that is none of ASCII. They show no event. It answers how many they are, 0 where there
    /// are none; any other byte is for `take`. None is left with which the token goes on and has fewer
    /// bytes than a tag may have. Where there is no memory, and after an error, it answers as `take`
    /// does.
    pub fn take_inside(&mut self, piece: &[u8]) -> Result<usize, MarkError>
        requires { reader_failure self.old ≡ None → bytes_taken self.old + length piece.now ≤ 2 ^ 40 }
        ensures none { IfOk result (λ n. n ≡ 0 → self.new ≡ self.old) }
        ensures within { IfOk result (λ n. n ≤ length piece.now) }
        ensures taken { (limit : ℕ) (bytes : List ℕ) (told : List Placed) → HasTakenUnder limit self.old bytes told → IfOk result (λ n. 0 < n → HasToldUnder limit self.new (bytes ++ take n piece.now) told) }
        ensures all { (limit : ℕ) (bytes : List ℕ) (told : List Placed) (more rest : List ℕ) → MayTakeInsideUnder limit self.old bytes told more → piece.now ≡ more ++ rest → IfOk result (λ n. length more ≤ n) }
        ensures count { IfOk result (λ n. bytes_taken self.new ≡ bytes_taken self.old + n) }
        ensures failed { IfErr result (λ e. reader_failure self.new ≡ Some e) }
        ensures memory { reader_failure self.old ≡ None → IfErr result (λ e. e ≡ MarkError.Memory) }
        ensures again { (e : MarkError) → reader_failure self.old ≡ Some e → (result ≡ Err e) × (self.new ≡ self.old) }
    {
        if let Some(error) = self.failed {
            return Err(error);
        }
        match self.tokenizer.take_inside(piece) {
            Ok(count) => Ok(count),
            Err(_) => {
                self.failed = Some(MarkError::Memory);
                Err(MarkError::Memory)
            }
        }
    }

    /// How many elements are open, whose start tags have ended and whose end tags have not. After an
    /// error it says nothing of the bytes.
    pub fn depth(&self) -> usize
        ensures { (limit : ℕ) (bytes : List ℕ) (told : List Placed) → HasTakenUnder limit self.now bytes told → result ≡ length (open_behind [] told) }
    {
        self.context.depth()
    }

    /// How many bytes were taken. After an error it says nothing of the bytes: the fault has its own
    /// place, and the byte with which `take` ran out of memory may be counted or not.
    pub fn place(&self) -> u64
        ensures { result ≡ bytes_taken self.now }
    {
        self.tokenizer.place()
    }

    /// How many bytes are held for the open token: those of the names and values that a tag has said
    /// so far. It takes no memory.
    pub fn token(&self) -> u64
        ensures count { open_token_held self.now < 2 ^ 64 → result ≡ open_token_held self.now }
        ensures held { (limit : ℕ) (bytes : List ℕ) (told : List Placed) → HasTakenUnder limit self.now bytes told → result ≡ open_token_held self.now }
        ensures within { (limit : ℕ) (bytes : List ℕ) (told : List Placed) → HasTakenUnder limit self.now bytes told → result ≤ token_length self.now }
        ensures bound { (limit : ℕ) (bytes : List ℕ) (told : List Placed) → HasTakenUnder limit self.now bytes told → result ≤ limit }
    {
        self.tokenizer.held()
    }

    /// Forgets what the open token has said, so that no bytes are held for it. It is for a reader that
    /// takes no more bytes.
    pub fn forget_token(&mut self)
        ensures token { open_token_held self.new ≡ 0 }
        ensures count { bytes_taken self.new ≡ bytes_taken self.old }
        ensures failed { reader_failure self.new ≡ reader_failure self.old }
    {
        let _ = self.tokenizer.take_draft();
    }

    /// The end of the input. It appends no event. It answers Ok where the bytes are whole, and
    /// else refuses with their first fault, for good.
    pub fn finish(&mut self, out: &mut Events) -> Result<(), MarkError>
        ensures ok { (limit : ℕ) (bytes : List ℕ) (told : List Placed) → HasTakenUnder limit self.old bytes told →
            IfOk result (λ _. IsWhollyUnder limit bytes told) }
        ensures err { (limit : ℕ) (bytes : List ℕ) (told : List Placed) → HasTakenUnder limit self.old bytes told →
            IfErr result (λ e. EndsEarlyUnder limit bytes e) }
        ensures failed { IfErr result (λ e. reader_failure self.new ≡ Some e) }
        ensures again { (e : MarkError) → reader_failure self.old ≡ Some e → (result ≡ Err e) × (self.new ≡ self.old) }
        ensures still { IfOk result (λ _. self.new ≡ self.old) }
        ensures same { out.new ≡ out.old }
    {
        let _ = out;
        if let Some(error) = self.failed {
            return Err(error);
        }
        if self.is_whole() {
            return Ok(());
        }
        let error = MarkError::Refused(MarkFault {
            rule: Rule::Truncated,
            place: self.tokenizer.place(),
        });
        self.failed = Some(error);
        Err(error)
    }

    /// Takes the next byte, where the reader has not failed.
    fn step(&mut self, byte: u8, out: &mut Events) -> Result<(), MarkError>
        requires { bytes_taken self.old < 2 ^ 40 }
        ensures ok { (limit : ℕ) (bytes : List ℕ) (told : List Placed) → HasTakenUnder limit self.old bytes told →
            IfOk result (λ _. GoesOnUnder limit self.new (bytes ++ byte ∷ []) told out.old out.new) }
        ensures err { (limit : ℕ) (bytes : List ℕ) (told : List Placed) → HasTakenUnder limit self.old bytes told →
            IfErr result (λ e. StopsUnder limit (bytes ++ byte ∷ []) told out.old out.new e) }
        ensures count { IfOk result (λ _. bytes_taken self.new ≡ bytes_taken self.old + 1) }
    {
        let place = self.tokenizer.start();
        let cdata = self.tokenizer.in_cdata();
        if self.tokenizer.take_plain(byte) {
            return self.take_inner(Ended::Character(byte as char), cdata, place, out);
        }
        self.step_any(byte, out)
    }

    /// Takes any next byte, where the reader has not failed.
    fn step_any(&mut self, byte: u8, out: &mut Events) -> Result<(), MarkError>
        requires { bytes_taken self.old < 2 ^ 40 }
        ensures ok { (limit : ℕ) (bytes : List ℕ) (told : List Placed) → HasTakenUnder limit self.old bytes told →
            IfOk result (λ _. GoesOnUnder limit self.new (bytes ++ byte ∷ []) told out.old out.new) }
        ensures err { (limit : ℕ) (bytes : List ℕ) (told : List Placed) → HasTakenUnder limit self.old bytes told →
            IfErr result (λ e. StopsUnder limit (bytes ++ byte ∷ []) told out.old out.new e) }
        ensures count { IfOk result (λ _. bytes_taken self.new ≡ bytes_taken self.old + 1) }
    {
        if self.settle(byte, out).is_err() {
            return Err(MarkError::Memory);
        }
        self.advance(byte, out)
    }

    /// Tells what the byte does not go on with.
    fn settle(&mut self, byte: u8, out: &mut Events) -> Result<(), AllocError>
        requires { bytes_taken self.old < 2 ^ 40 }
        ensures ok { (limit : ℕ) (bytes : List ℕ) (told : List Placed) → HasTakenUnder limit self.old bytes told →
            IfOk result (λ _. SettlesEvents limit self.new bytes told byte out.old out.new) }
        ensures err { (limit : ℕ) (bytes : List ℕ) (told : List Placed) → HasTakenUnder limit self.old bytes told →
            IfErr result (λ _. RunsOutUnder limit (bytes ++ byte ∷ []) told out.old out.new) }
        ensures place { bytes_taken self.new ≡ bytes_taken self.old }
    {
        let place = self.tokenizer.start();
        let settled = self.tokenizer.settle(byte);
        self.context.settle(settled, place, out)
    }

    /// Takes a byte that what is open goes on with.
    fn advance(&mut self, byte: u8, out: &mut Events) -> Result<(), MarkError>
        requires { bytes_taken self.old < 2 ^ 40 }
        ensures ok { (limit : ℕ) (bytes : List ℕ) (tokens : List Token) (told : List Placed) → Keeps limit (Begins byte) self.old bytes tokens told → IsAwaited self.old.tokenizer.scan byte →
            IfOk result (λ _. TellsMore limit Any self.new (bytes ++ byte ∷ []) told out.old out.new) }
        ensures err { (limit : ℕ) (bytes : List ℕ) (tokens : List Token) (told : List Placed) → Keeps limit (Begins byte) self.old bytes tokens told → IsAwaited self.old.tokenizer.scan byte →
            IfErr result (λ e. StopsUnder limit (bytes ++ byte ∷ []) told out.old out.new e) }
        ensures count { IfOk result (λ _. bytes_taken self.new ≡ bytes_taken self.old + 1) }
    {
        let place = self.tokenizer.start();
        let cdata = self.tokenizer.in_cdata();
        let is_told = self.has_open_return();
        match self.tokenizer.advance(byte) {
            Ok(Progress::More) => self.tell_return(place, out),
            Ok(Progress::Token(ended)) => {
                if is_told {
                    self.context.pass_line_end();
                    Ok(())
                } else {
                    self.take_token(ended, cdata, place, out)
                }
            }
            Ok(Progress::Refused(rule)) => Err(MarkError::Refused(MarkFault { rule, place })),
            Err(_) => Err(MarkError::Memory),
        }
    }

    /// Whether a CR is open, which an LF may join.
    #[inline]
    fn has_open_return(&self) -> bool
        ensures { (f : Finish) × FinishesBy self.now.tokenizer f × (result ≡ is_return f) }
    {
        matches!(self.tokenizer.finish(), Finish::Return)
    }

    /// Tells a CR that has come.
    fn tell_return(&self, place: u64, out: &mut Events) -> Result<(), MarkError>
        ensures ok { OnOk result ((f : Finish) × FinishesBy self.now.tokenizer f × Tells out.old out.new (return_items f place)) }
        ensures err { IfErr result (λ e. (e ≡ MarkError.Memory) × (out.new ≡ out.old)) }
    {
        if self.has_open_return() && self.context.tell_line_end(place, out).is_err() {
            return Err(MarkError::Memory);
        }
        Ok(())
    }

    /// Takes a token that has ended.
    #[inline]
    fn take_token(
        &mut self,
        ended: Ended,
        cdata: bool,
        place: u64,
        out: &mut Events,
    ) -> Result<(), MarkError>
        ensures token { (before : List Token) (t : Token) → IsContext self.old.context before → ended_of t ≡ ended → draft_of t ≡ self.old.tokenizer.draft → in_cdata before ≡ cdata →
            TokenAnswered before t place out.old out.new self.new.context result }
        ensures rest { (self.new.tokenizer ≡ handed_out ended self.old.tokenizer) × (self.new.failed ≡ self.old.failed) }
    {
        if ended.is_tag() {
            self.take_whole_tag(ended, cdata, place, out)
        } else {
            self.take_inner(ended, cdata, place, out)
        }
    }

    /// Takes a tag that has ended.
    fn take_whole_tag(
        &mut self,
        ended: Ended,
        cdata: bool,
        place: u64,
        out: &mut Events,
    ) -> Result<(), MarkError>
        ensures token { (before : List Token) (t : Token) → IsContext self.old.context before → ended_of t ≡ ended → draft_of t ≡ self.old.tokenizer.draft → in_cdata before ≡ cdata →
            TokenAnswered before t place out.old out.new self.new.context result }
        ensures rest { (self.new.tokenizer ≡ without_draft self.old.tokenizer) × (self.new.failed ≡ self.old.failed) }
    {
        let draft = self.tokenizer.take_draft();
        match self.context.take(ended, draft, cdata, place, out) {
            Ok(()) => Ok(()),
            Err(Stop::Rule(rule)) => Err(MarkError::Refused(MarkFault { rule, place })),
            Err(Stop::Memory) => Err(MarkError::Memory),
        }
    }

    /// Takes a token that is no tag.
    #[inline]
    fn take_inner(
        &mut self,
        ended: Ended,
        cdata: bool,
        place: u64,
        out: &mut Events,
    ) -> Result<(), MarkError>
        requires { ends_tag ended ≡ false }
        ensures token { (before : List Token) (t : Token) → IsContext self.old.context before → ended_of t ≡ ended → in_cdata before ≡ cdata →
            TokenAnswered before t place out.old out.new self.new.context result }
        ensures rest { (self.new.tokenizer ≡ self.old.tokenizer) × (self.new.failed ≡ self.old.failed) }
    {
        match self.context.take_inner(ended, cdata, place, out) {
            Ok(()) => Ok(()),
            Err(Stop::Rule(rule)) => Err(MarkError::Refused(MarkFault { rule, place })),
            Err(Stop::Memory) => Err(MarkError::Memory),
        }
    }

    /// Whether the bytes so far are whole.
    fn is_whole(&self) -> bool
        ensures whole { (limit : ℕ) (bytes : List ℕ) (told : List Placed) → HasTakenUnder limit self.now bytes told → IsTrue result → IsWhollyUnder limit bytes told }
        ensures cut { (limit : ℕ) (bytes : List ℕ) (told : List Placed) → HasTakenUnder limit self.now bytes told → IsFalse result → HasMarkFault limit bytes (record { rule = Truncated; place = self.now.tokenizer.place }) }
    {
        match self.tokenizer.finish() {
            Finish::Open => false,
            _ => self.context.is_over(),
        }
    }
}
