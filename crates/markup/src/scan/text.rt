//! Tokens of text and of CDATA sections, and how markup begins (XML 1.0 §2.4, §2.7, §3.1).
ghost use Rattle.std.specs.Prelude.{◌≡◌};
ghost use Rattle.markup.specs.inner.Scans.{begin_step, text_step, line_step, cdata_step, reference_turn, opened_step};

use crate::characters::{begins_name, is_allowed};
use crate::reference::{ReferenceScan, ReferenceTurn};
use crate::scan::{Ended, NameScan, Position, Scan, Turn, goes_if};

/// At a token's first character: U+FEFF is a byte order mark at the start of the input; else as in text or in a CDATA section.
#[inline]
pub(super) fn begin(position: Position, c: char) -> Turn
    ensures { result ≡ begin_step position c }
{
    match position {
        Position::Start => {
            if c == '\u{FEFF}' {
                Turn::Whole(Ended::Mark)
            } else {
                in_text(true, c)
            }
        }
        Position::AfterMark => in_text(true, c),
        Position::Text => in_text(false, c),
        Position::Cdata => in_cdata(c),
    }
}

/// In text: `<` begins markup, `&` a reference, and other characters are those of a line.
#[inline]
pub(super) fn in_text(first: bool, c: char) -> Turn
    ensures { result ≡ text_step first c }
{
    if c == '<' {
        Turn::Goes(Scan::Opened(first))
    } else if c == '&' {
        Turn::Goes(Scan::Reference(ReferenceScan::Begun))
    } else {
        in_line(c)
    }
}

/// In a line of text: CR begins a line end, LF is one, and any other character that is allowed is a token.
#[inline]
pub(super) fn in_line(c: char) -> Turn
    ensures { result ≡ line_step c }
{
    if c == '\r' {
        Turn::Goes(Scan::AfterReturn)
    } else if c == '\n' {
        Turn::Whole(Ended::LineEnd)
    } else {
        goes_if(is_allowed(c), Turn::Whole(Ended::Character(c)))
    }
}

/// In a CDATA section: `]` may begin its end, and other characters are those of a line.
#[inline]
pub(super) fn in_cdata(c: char) -> Turn
    ensures { result ≡ cdata_step c }
{
    if c == ']' {
        Turn::Goes(Scan::Bracket)
    } else {
        in_line(c)
    }
}

/// In a reference in text: it goes on, or gives its character, or the character stands nowhere there.
#[inline]
pub(super) fn in_reference(scan: ReferenceScan, c: char) -> Turn
    ensures { result ≡ reference_turn scan c }
{
    match scan.step(c) {
        ReferenceTurn::Continues(next) => Turn::Goes(Scan::Reference(next)),
        ReferenceTurn::Gives(given) => Turn::Whole(Ended::Refer(given)),
        ReferenceTurn::Breaks => Turn::Stuck,
    }
}

/// Behind `<`: `!`, `?` or `/` leads on, or the name of a start tag begins.
pub(super) fn opened(first: bool, c: char) -> Turn
    ensures { result ≡ opened_step first c }
{
    if c == '!' {
        Turn::Goes(Scan::Bang)
    } else if c == '?' {
        Turn::Goes(Scan::Question(first))
    } else if c == '/' {
        Turn::Goes(Scan::EndOpened)
    } else {
        goes_if(begins_name(c), Turn::Goes(Scan::StartName(NameScan::First)))
    }
}
