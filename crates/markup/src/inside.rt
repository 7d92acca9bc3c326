//! Bytes with which an open token goes on as it stands: of a name, a value, a comment, an instruction.
ghost use Rattle.std.specs.Prelude.{◌≡◌, ◌≤◌, true, length, take};
ghost use Rattle.std.specs.List.{prefix_len};
ghost use Rattle.markup.specs.PlainStarts.{is_quote, is_literal_of};
ghost use Rattle.markup.specs.inner.Inside.{is_passed, IsStill};

use crate::classes::{DoubleQuoted, Passed, SingleQuoted};
use crate::plain_tag::name_length;
use crate::scan::{NameScan, Scan};
use lexical_core::run_length;

/// How many bytes at the front of the piece stand for themselves in a value in these quotes.
#[inline]
pub(crate) fn value_length(quote: char, piece: &[u8]) -> usize
    ensures within { result ≤ length piece.now }
    ensures count { result ≤ prefix_len (is_literal_of quote) piece.now }
    ensures all { is_quote quote ≡ true → result ≡ prefix_len (is_literal_of quote) piece.now }
{
    match quote {
        '"' => run_length(&DoubleQuoted, piece),
        '\'' => run_length(&SingleQuoted, piece),
        _ => 0,
    }
}

/// How many bytes at the front of the piece do not begin the end of a comment.
#[inline]
pub(crate) fn comment_length(piece: &[u8]) -> usize
    ensures within { result ≤ length piece.now }
    ensures count { result ≡ prefix_len (is_passed 45) piece.now }
{
    run_length(&Passed::Comment, piece)
}

/// How many bytes at the front of the piece do not begin the end of an instruction.
#[inline]
pub(crate) fn instruction_length(piece: &[u8]) -> usize
    ensures within { result ≤ length piece.now }
    ensures count { result ≡ prefix_len (is_passed 63) piece.now }
{
    run_length(&Passed::Instruction, piece)
}

/// How many bytes at the front of the piece a part of a name goes on with.
#[inline]
pub(crate) fn part_length(part: NameScan, piece: &[u8]) -> usize
    ensures within { result ≤ length piece.now }
    ensures name { IsStill (Scan.StartName part) (take result piece.now) }
    ensures attribute { IsStill (Scan.AttributeName part) (take result piece.now) }
    ensures end { IsStill (Scan.EndName part) (take result piece.now) }
{
    match part {
        NameScan::Colon => 0,
        _ => name_length(piece),
    }
}
