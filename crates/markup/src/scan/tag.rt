//! Start tags and end tags (XML 1.0 §3.1).
ghost use Rattle.std.specs.Prelude.{◌≡◌};
ghost use Rattle.markup.specs.inner.Scans.{value_reference_turn, start_name_step, behind_attribute_step, close_step, gap_step, attribute_name_step, before_equals_step, after_equals_step, value_step, end_name_step, end_gap_step};

use crate::characters::{begins_name, is_allowed, is_blank};
use crate::reference::{ReferenceScan, ReferenceTurn};
use crate::scan::{Ended, NameScan, NameTurn, Scan, Turn, goes_if};

/// In the name of a start tag: it goes on, or ends, or the character stands nowhere there.
pub(super) fn start_name(scan: NameScan, c: char) -> Turn
    ensures { result ≡ start_name_step scan c }
{
    match scan.step(c) {
        NameTurn::Remains(next) => Turn::Goes(Scan::StartName(next)),
        NameTurn::Ends => behind_attribute(c),
        NameTurn::Fails => Turn::Stuck,
    }
}

/// Behind a start tag's name or an attribute: white space, or the end of the tag.
pub(super) fn behind_attribute(c: char) -> Turn
    ensures { result ≡ behind_attribute_step c }
{
    if is_blank(c) {
        Turn::Goes(Scan::Gap)
    } else {
        closes(c)
    }
}

/// Where a start tag may end: the `/` of an empty element's tag, or `>`.
pub(super) fn closes(c: char) -> Turn
    ensures { result ≡ close_step c }
{
    if c == '/' {
        Turn::Goes(Scan::Slash)
    } else {
        goes_if(c == '>', Turn::Whole(Ended::Start(false)))
    }
}

/// In white space of a start tag: an attribute begins, or more white space or the end of the tag follows.
pub(super) fn gap(c: char) -> Turn
    ensures { result ≡ gap_step c }
{
    if begins_name(c) {
        Turn::Goes(Scan::AttributeName(NameScan::First))
    } else {
        behind_attribute(c)
    }
}

/// In an attribute's name: it goes on, or ends, or the character stands nowhere there.
pub(super) fn attribute_name(scan: NameScan, c: char) -> Turn
    ensures { result ≡ attribute_name_step scan c }
{
    match scan.step(c) {
        NameTurn::Remains(next) => Turn::Goes(Scan::AttributeName(next)),
        NameTurn::Ends => before_equals(c),
        NameTurn::Fails => Turn::Stuck,
    }
}

/// Behind an attribute's name: white space, or `=`.
pub(super) fn before_equals(c: char) -> Turn
    ensures { result ≡ before_equals_step c }
{
    if is_blank(c) {
        Turn::Goes(Scan::BeforeEquals)
    } else {
        goes_if(c == '=', Turn::Goes(Scan::AfterEquals))
    }
}

/// Behind the `=` of an attribute: white space, or the quote before its value.
pub(super) fn after_equals(c: char) -> Turn
    ensures { result ≡ after_equals_step c }
{
    if is_blank(c) {
        Turn::Goes(Scan::AfterEquals)
    } else {
        goes_if(c == '"' || c == '\'', Turn::Goes(Scan::Value(c, false)))
    }
}

/// In an attribute's value: its quote ends it, `&` begins a reference, and any character that is allowed but `<` goes on.
pub(super) fn value(quote: char, c: char) -> Turn
    ensures { result ≡ value_step quote c }
{
    if c == quote {
        Turn::Goes(Scan::AfterValue)
    } else if c == '&' {
        Turn::Goes(Scan::ValueReference(quote, ReferenceScan::Begun))
    } else {
        goes_if(
            is_allowed(c) && c != '<',
            Turn::Goes(Scan::Value(quote, c == '\r')),
        )
    }
}

/// In a reference in an attribute's value: it goes on, or ends, or the character stands nowhere there.
pub(super) fn value_reference(quote: char, scan: ReferenceScan, c: char) -> Turn
    ensures { result ≡ value_reference_turn quote scan c }
{
    match scan.step(c) {
        ReferenceTurn::Continues(next) => Turn::Goes(Scan::ValueReference(quote, next)),
        ReferenceTurn::Gives(_) => Turn::Goes(Scan::Value(quote, false)),
        ReferenceTurn::Breaks => Turn::Stuck,
    }
}

/// In the name of an end tag: it goes on, or ends, or the character stands nowhere there.
pub(super) fn end_name(scan: NameScan, c: char) -> Turn
    ensures { result ≡ end_name_step scan c }
{
    match scan.step(c) {
        NameTurn::Remains(next) => Turn::Goes(Scan::EndName(next)),
        NameTurn::Ends => end_gap(c),
        NameTurn::Fails => Turn::Stuck,
    }
}

/// Behind the name of an end tag: white space, or `>`.
pub(super) fn end_gap(c: char) -> Turn
    ensures { result ≡ end_gap_step c }
{
    if is_blank(c) {
        Turn::Goes(Scan::EndGap)
    } else {
        goes_if(c == '>', Turn::Whole(Ended::End))
    }
}
