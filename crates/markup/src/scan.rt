//! How far a token has come, and what one more character makes of it.
ghost use Rattle.std.specs.Prelude.{◌≡◌};
ghost use Rattle.markup.specs.inner.ScanRuns.{ReadsGrammar};
ghost use Rattle.markup.specs.inner.Scans.{goes_if, name_step, step};

use self::declaration::{
    declaration_gap, field_after, field_before, field_end, field_gap, field_name, field_value,
    field_word,
};
use self::instruction::{
    bang, in_comment, in_fixed, instruction_mark, instruction_text, question, target, target_x,
    target_xm, target_xml,
};
use self::tag::{
    after_equals, attribute_name, before_equals, behind_attribute, end_gap, end_name, gap,
    start_name, value, value_reference,
};
use self::text::{begin, in_reference, opened};
use crate::characters::{begins_name, continues_name, is_allowed};
use crate::event::What;
use crate::inside::{comment_length, instruction_length, part_length, value_length};
use crate::reference::ReferenceScan;
use crate::word::Word;
use lexical_core::Rule;

mod declaration;
mod instruction;
mod tag;
mod text;

/// Where a token begins.
#[derive(Clone, Copy)]
pub(crate) enum Position {
    /// At the start of the input.
    Start,
    /// Behind the byte order mark.
    AfterMark,
    /// Behind another token, in no CDATA section.
    Text,
    /// In a CDATA section.
    Cdata,
}

/// How far a name has come.
#[derive(Clone, Copy)]
pub(crate) enum NameScan {
    /// In its first part.
    First,
    /// Behind its colon.
    Colon,
    /// In its second part.
    Second,
}

/// A field of the XML declaration.
#[derive(Clone, Copy)]
pub(crate) enum Field {
    Version,
    Encoding,
    Standalone,
}

/// How far a token has come.
#[derive(Clone, Copy)]
pub(crate) enum Scan {
    /// Nothing yet.
    Begin(Position),
    /// A CR.
    AfterReturn,
    /// A `]` in a CDATA section.
    Bracket,
    /// `]]` in a CDATA section.
    Brackets,
    /// `&` and what follows it.
    Reference(ReferenceScan),
    /// `<`; a declaration may follow or not.
    Opened(bool),
    /// `<!`.
    Bang,
    /// `<!-`.
    BangHyphen,
    /// `<!--` and the comment's text.
    CommentText,
    /// A hyphen in a comment.
    CommentHyphen,
    /// `--` in a comment.
    CommentEnd,
    /// So many letters of `CDATA[` or `DOCTYPE`.
    Fixed(Word, u8),
    /// `<?`; a declaration may follow or not.
    Question(bool),
    /// A target that is `x` so far.
    TargetX(bool),
    /// A target that is `xm` so far.
    TargetXm(bool),
    /// A target that is `xml` so far.
    TargetXml(bool),
    /// Another target.
    Target,
    /// A `?` right behind the target.
    TargetMark,
    /// An instruction's text.
    InstructionText,
    /// A `?` in an instruction's text.
    InstructionMark,
    /// White space behind `<?xml`.
    DeclarationGap,
    /// So many letters of a field's name.
    FieldName(Field, u8),
    /// White space behind a field's name.
    FieldBefore(Field),
    /// `=` behind a field's name.
    FieldAfter(Field),
    /// The quote before a field's value.
    FieldValue(Field, char),
    /// So many letters of a field's value, in these quotes.
    FieldWord(Field, Word, char, u8),
    /// A field.
    FieldEnd(Field),
    /// White space behind a field.
    FieldGap(Field),
    /// The `?` of a declaration's end.
    DeclarationMark,
    /// The name of a start tag.
    StartName(NameScan),
    /// White space behind a start tag's name or an attribute.
    Gap,
    /// An attribute's name.
    AttributeName(NameScan),
    /// White space behind an attribute's name.
    BeforeEquals,
    /// `=` behind an attribute's name.
    AfterEquals,
    /// An attribute's value in these quotes, behind a literal CR or not.
    Value(char, bool),
    /// A reference in an attribute's value in these quotes.
    ValueReference(char, ReferenceScan),
    /// An attribute.
    AfterValue,
    /// The `/` of an empty element's tag.
    Slash,
    /// `</`.
    EndOpened,
    /// The name of an end tag.
    EndName(NameScan),
    /// White space behind the name of an end tag.
    EndGap,
}

/// The token that has ended.
#[derive(Clone, Copy)]
pub(crate) enum Ended {
    Mark,
    Declaration,
    /// A comment or an instruction.
    Passed,
    Opener,
    Closer,
    TypeDeclaration,
    /// A start tag, of an empty element or not.
    Start(bool),
    End,
    /// A reference to this character.
    Refer(char),
    LineEnd,
    Character(char),
}

/// What a character makes of a token.
#[derive(Clone, Copy)]
pub(crate) enum Turn {
    /// It goes on.
    Goes(Scan),
    /// The character ends it.
    Whole(Ended),
    /// No token goes on so.
    Stuck,
}

/// What a character makes of a name.
#[derive(Clone, Copy)]
pub(crate) enum NameTurn {
    /// It goes on.
    Remains(NameScan),
    /// The name stands before the character.
    Ends,
    /// No name goes on so.
    Fails,
}

impl Ended {
    ghost use Rattle.std.specs.Prelude.{◌∷◌, []};
    ghost use Rattle.markup.specs.EventItems.{item_of};
    ghost use Rattle.markup.specs.inner.TokenRules.{inner_items, ends_tag};

    /// Whether a start tag or an end tag has ended.
    #[inline]
    pub(crate) fn is_tag(self) -> bool
        ensures { result ≡ ends_tag self }
    {
        matches!(self, Ended::Start(_) | Ended::End)
    }

    /// The event of a token that is no tag.
    #[inline]
    pub(crate) fn what(self) -> What
        ensures { inner_items self ≡ item_of result ∷ [] }
    {
        match self {
            Ended::Refer(c) => What::Char(c),
            Ended::LineEnd => What::Char('\n'),
            Ended::Character(c) => What::Char(c),
            _ => What::Skipped,
        }
    }
}

impl Position {
    ghost use Rattle.markup.specs.inner.Tokenizers.{behind_token};

    /// Where a token begins behind one that ended so.
    pub(crate) fn behind(self, ended: Ended) -> Position
        ensures { result ≡ behind_token self ended }
    {
        match ended {
            Ended::Mark => Position::AfterMark,
            Ended::Opener => Position::Cdata,
            Ended::Closer => Position::Text,
            _ => match self {
                Position::Cdata => Position::Cdata,
                _ => Position::Text,
            },
        }
    }
}

impl NameScan {
    /// In a name: it goes on, or ends before the character; behind its colon it can only go on.
    pub(crate) fn step(self, c: char) -> NameTurn
        ensures { result ≡ name_step self c }
    {
        match self {
            NameScan::First => {
                if continues_name(c) {
                    NameTurn::Remains(NameScan::First)
                } else if c == ':' {
                    NameTurn::Remains(NameScan::Colon)
                } else {
                    NameTurn::Ends
                }
            }
            NameScan::Colon => {
                if begins_name(c) {
                    NameTurn::Remains(NameScan::Second)
                } else {
                    NameTurn::Fails
                }
            }
            NameScan::Second => {
                if continues_name(c) {
                    NameTurn::Remains(NameScan::Second)
                } else {
                    NameTurn::Ends
                }
            }
        }
    }
}

impl Scan {
    ghost use Rattle.std.specs.Prelude.{◌≤◌, length, take};
    ghost use Rattle.markup.specs.inner.Inside.{is_inside, may_be_tag, IsStill};
    ghost use Rattle.markup.specs.inner.Tokenizers.{is_between, is_text, is_tag, is_reference_open, stuck_rule};

    /// What the character makes of the token. A token's first character and those of a reference are
    /// told apart before all else, since most that are taken one at a time are such.
    #[inline]
    pub(crate) fn turn(self, c: char) -> Turn
        ensures { result ≡ step self c }
    {
        match self {
            Scan::Begin(position) => begin(position, c),
            Scan::Reference(scan) => in_reference(scan, c),
            _ => self.step(c),
        }
    }

    /// What the character makes of the token.
    pub(crate) fn step(self, c: char) -> Turn
        ensures { result ≡ step self c }
    {
        match self {
            Scan::Begin(position) => begin(position, c),
            Scan::AfterReturn => goes_if(c == '\n', Turn::Whole(Ended::LineEnd)),
            Scan::Bracket => goes_if(c == ']', Turn::Goes(Scan::Brackets)),
            Scan::Brackets => goes_if(c == '>', Turn::Whole(Ended::Closer)),
            Scan::Reference(scan) => in_reference(scan, c),
            Scan::Opened(first) => opened(first, c),
            Scan::Bang => bang(c),
            Scan::BangHyphen => goes_if(c == '-', Turn::Goes(Scan::CommentText)),
            Scan::CommentText => in_comment(Scan::CommentHyphen, c),
            Scan::CommentHyphen => in_comment(Scan::CommentEnd, c),
            Scan::CommentEnd => goes_if(c == '>', Turn::Whole(Ended::Passed)),
            Scan::Fixed(word, at) => in_fixed(word, at, c),
            Scan::Question(first) => question(first, c),
            Scan::TargetX(first) => target_x(first, c),
            Scan::TargetXm(first) => target_xm(first, c),
            Scan::TargetXml(first) => target_xml(first, c),
            Scan::Target => target(c),
            Scan::TargetMark => goes_if(c == '>', Turn::Whole(Ended::Passed)),
            Scan::InstructionText => instruction_text(c),
            Scan::InstructionMark => instruction_mark(c),
            Scan::DeclarationGap => declaration_gap(c),
            Scan::FieldName(field, at) => field_name(field, at, c),
            Scan::FieldBefore(field) => field_before(field, c),
            Scan::FieldAfter(field) => field_after(field, c),
            Scan::FieldValue(field, quote) => field_value(field, quote, c),
            Scan::FieldWord(field, word, quote, at) => field_word(field, word, quote, at, c),
            Scan::FieldEnd(field) => field_end(field, c),
            Scan::FieldGap(field) => field_gap(field, c),
            Scan::DeclarationMark => goes_if(c == '>', Turn::Whole(Ended::Declaration)),
            Scan::StartName(scan) => start_name(scan, c),
            Scan::Gap => gap(c),
            Scan::AttributeName(scan) => attribute_name(scan, c),
            Scan::BeforeEquals => before_equals(c),
            Scan::AfterEquals => after_equals(c),
            Scan::Value(quote, _) => value(quote, c),
            Scan::ValueReference(quote, scan) => value_reference(quote, scan, c),
            Scan::AfterValue => behind_attribute(c),
            Scan::Slash => goes_if(c == '>', Turn::Whole(Ended::Start(true))),
            Scan::EndOpened => goes_if(begins_name(c), Turn::Goes(Scan::EndName(NameScan::First))),
            Scan::EndName(scan) => end_name(scan, c),
            Scan::EndGap => end_gap(c),
        }
    }

    /// Whether a token begins behind another that is not the byte order mark.
    #[inline]
    pub(crate) fn is_between(self) -> bool
        ensures { result ≡ is_between self }
    {
        matches!(
            self,
            Scan::Begin(Position::Text) | Scan::Begin(Position::Cdata)
        )
    }

    /// Whether a token begins behind another that is not the byte order mark, in no CDATA section.
    #[inline]
    pub(crate) fn is_text(self) -> bool
        ensures { result ≡ is_text self }
    {
        matches!(self, Scan::Begin(Position::Text))
    }

    /// Whether a start tag or an end tag is open.
    pub(crate) fn is_tag(self) -> bool
        ensures { result ≡ is_tag self }
    {
        matches!(
            self,
            Scan::StartName(_)
                | Scan::Gap
                | Scan::AttributeName(_)
                | Scan::BeforeEquals
                | Scan::AfterEquals
                | Scan::Value(_, _)
                | Scan::ValueReference(_, _)
                | Scan::AfterValue
                | Scan::Slash
                | Scan::EndOpened
                | Scan::EndName(_)
                | Scan::EndGap
        )
    }

    /// Whether a reference is open.
    fn is_reference(self) -> bool
        ensures { result ≡ is_reference_open self }
    {
        matches!(self, Scan::Reference(_) | Scan::ValueReference(_, _))
    }

    /// The rule that a character breaks with which no token goes on.
    pub(crate) fn stuck_rule(self, c: char) -> Rule
        ensures { result ≡ stuck_rule self c }
    {
        if !is_allowed(c) {
            Rule::BadChar
        } else if self.is_reference() {
            Rule::BadReference
        } else {
            Rule::BadMarkup
        }
    }

    /// Whether a token is open of which the next byte settles nothing.
    #[inline]
    pub(crate) fn is_inside(self) -> bool
        ensures { result ≡ is_inside self }
    {
        !matches!(
            self,
            Scan::Begin(_) | Scan::AfterReturn | Scan::Bracket | Scan::Brackets
        )
    }

    /// Whether the open token is a tag, or may become one.
    #[inline]
    pub(crate) fn may_be_tag(self) -> bool
        ensures { result ≡ may_be_tag self }
    {
        matches!(self, Scan::Opened(_)) || self.is_tag()
    }

    /// How many bytes at the front of the piece leave the scan as it is.
    #[inline]
    pub(crate) fn still_length(self, piece: &[u8]) -> usize
        ensures within { result ≤ length piece.now }
        ensures still { IsStill self (take result piece.now) }
    {
        match self {
            Scan::Value(quote, after_return) => {
                if after_return {
                    0
                } else {
                    value_length(quote, piece)
                }
            }
            Scan::StartName(part) => part_length(part, piece),
            Scan::AttributeName(part) => part_length(part, piece),
            Scan::EndName(part) => part_length(part, piece),
            Scan::CommentText => comment_length(piece),
            Scan::InstructionText => instruction_length(piece),
            _ => 0,
        }
    }
}

/// The turn, where the test holds.
pub(crate) fn goes_if(holds: bool, turn: Turn) -> Turn
    ensures { result ≡ goes_if holds turn }
{
    if holds { turn } else { Turn::Stuck }
}

/// The scan reads the tokens of the grammar, and nothing else.
fn reads_grammar()
    ensures { ReadsGrammar }
{}
