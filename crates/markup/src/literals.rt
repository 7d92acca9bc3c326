//! Runs of characters that stand by themselves.
ghost use Rattle.std.specs.Prelude.{◌≡◌, ◌<◌, ◌≤◌, ◌↔◌, IfSome, IsTrue, true, length, take};
ghost use Rattle.std.specs.List.{prefix_len, list_all};
ghost use Rattle.lexical_core.specs.Begun.{IsTail};
ghost use Rattle.markup.specs.Chars.{is_space};
ghost use Rattle.markup.specs.Literals.{is_literal, is_still_literal, is_still_space, IsAt, IsWideAt, IsFreeRun, IsBracketRun};
ghost use Rattle.markup.specs.inner.ClosedBrackets.{IsClosedRun};

use crate::characters::is_allowed;
use crate::classes::{Blank, StillBlank, StillLiteral};
use lexical_core::{ByteClass, Utf8, Utf8Step, run_length};

/// A run of characters.
#[derive(Clone, Copy, Debug, PartialEq, Eq)]
pub struct Run {
    /// How many bytes they have.
    pub bytes: usize,
    /// How many they are.
    pub characters: usize,
    /// Whether all are white space (XML 1.0 §2.3, S).
    pub blank: bool,
}

/// How far a run of characters goes.
#[derive(Clone, Copy)]
struct Extent {
    bytes: usize,
    characters: usize,
}

/// How many bytes the character at the front of the piece has, where XML has it and they are there.
fn size_at(piece: &[u8]) -> Option<usize>
    ensures { IfSome result (λ n. IsAt piece.now n) }
{
    let mut utf8 = Utf8Step::new();
    let mut count = 0_usize;
    let mut rest = piece;
    while let Some((byte, after)) = rest.split_first() {
        count += 1;
        match utf8.take(*byte) {
            Utf8::More => {}
            Utf8::Bad => return None,
            Utf8::Char(c) => {
                if is_allowed(c) {
                    return Some(count);
                }
                return None;
            }
        }
        rest = after;
    }
    None
}

/// Whether the byte is a character of an element's text, or a line end, wherever a token begins there,
/// whatever stands before it and behind it (XML 1.0 §2.4, §2.7, §2.11).
#[inline]
fn is_literal_byte(byte: u8) -> bool
    ensures { result ≡ is_literal byte }
{
    if byte >= 0x20 {
        byte <= 0x7F && byte != b'<' && byte != b'&' && byte != b']' && byte != b'>'
    } else {
        byte == b'\n' || byte == b'\t'
    }
}

/// Whether the byte may stand third in UTF-8, or second where the first byte says no more (RFC 3629 §4).
#[inline]
fn is_tail(byte: u8) -> bool
    ensures { IsTrue result ↔ IsTail byte }
{
    byte >= 0x80 && byte <= 0xBF
}

/// How many bytes the character at the front of the piece has, where it is one from U+0080 to
/// U+CFFF, all of which XML has (XML 1.0 §2.2).
#[inline]
fn common_size(piece: &[u8]) -> Option<usize>
    ensures { IfSome result (λ n. IsWideAt piece.now n) }
{
    let Some((first, behind)) = piece.split_first() else {
        return None;
    };
    let Some((second, after)) = behind.split_first() else {
        return None;
    };
    if *first < 0xC2 || *first > 0xEC || !is_tail(*second) {
        return None;
    }
    if *first <= 0xDF {
        return Some(2);
    }
    if *first == 0xE0 && *second < 0xA0 {
        return None;
    }
    let Some((third, _)) = after.split_first() else {
        return None;
    };
    if is_tail(*third) { Some(3) } else { None }
}

/// How many bytes the character at the front of the piece has, where it has several and XML has it.
#[inline]
pub(crate) fn wide_size(piece: &[u8]) -> Option<usize>
    ensures { IfSome result (λ n. IsWideAt piece.now n) }
{
    match common_size(piece) {
        Some(size) => Some(size),
        None => rare_size(piece),
    }
}

/// The same, a byte at a time.
fn rare_size(piece: &[u8]) -> Option<usize>
    ensures { IfSome result (λ n. IsWideAt piece.now n) }
{
    let Some((first, _)) = piece.split_first() else {
        return None;
    };
    if *first < 0x80 {
        return None;
    }
    size_at(piece)
}

/// How many bytes at the front of the piece are literal, or `>`. A piece that begins with none is told
/// by its first byte.
#[inline]
fn literal_length(piece: &[u8]) -> usize
    ensures within { result ≤ length piece.now }
    ensures count { result ≡ prefix_len is_still_literal piece.now }
{
    match piece.split_first() {
        Some((first, _)) => {
            if StillLiteral.has(*first) {
                run_length(&StillLiteral, piece)
            } else {
                0
            }
        }
        None => 0,
    }
}

/// How far the characters at the front of the piece go that stand by themselves, up to the first
/// byte that belongs to none.
fn literal_extent(piece: &[u8]) -> Extent
    ensures within { result.bytes ≤ length piece.now }
    ensures only { IsFreeRun (take result.bytes piece.now) result.characters }
    ensures all { prefix_len is_still_literal piece.now ≤ result.bytes }
{
    let mut bytes = 0_usize;
    let mut characters = 0_usize;
    let mut rest = piece;
    loop {
        let plain = literal_length(rest);
        let (_, behind) = rest.split_at(plain);
        bytes += plain;
        characters += plain;
        let Some(size) = wide_size(behind) else {
            return Extent { bytes, characters };
        };
        let (_, after) = behind.split_at(size);
        bytes += size;
        characters += 1;
        rest = after;
    }
}

/// Whether all of the bytes are white space.
fn is_blank_run(bytes: &[u8]) -> bool
    ensures { result ≡ list_all is_space bytes.now }
{
    match bytes.split_first() {
        Some((first, rest)) => Blank.has(*first) && run_length(&Blank, rest) == rest.len(),
        None => true,
    }
}

/// The characters at the front of the piece that stand by themselves, up to the first byte that
/// belongs to none.
pub(crate) fn literal_run(piece: &[u8]) -> Run
    ensures within { result.bytes ≤ length piece.now }
    ensures only { IsFreeRun (take result.bytes piece.now) result.characters }
    ensures blank { result.blank ≡ list_all is_space (take result.bytes piece.now) }
    ensures all { prefix_len is_still_literal piece.now ≤ result.bytes }
{
    let Extent { bytes, characters } = literal_extent(piece);
    let (front, _) = piece.split_at(bytes);
    Run {
        bytes,
        characters,
        blank: is_blank_run(front),
    }
}

/// How many bytes at the front of the piece are white space that stands by itself.
#[inline]
pub(crate) fn blank_length(piece: &[u8]) -> usize
    ensures within { result ≤ length piece.now }
    ensures count { result ≡ prefix_len is_still_space piece.now }
    ensures only { IsFreeRun (take result piece.now) result }
    ensures blank { list_all is_space (take result piece.now) ≡ true }
{
    run_length(&StillBlank, piece)
}

/// Whether the piece begins with a `]`, which is not literal.
#[inline]
pub(crate) fn begins_with_bracket(piece: &[u8]) -> bool
    ensures { IsTrue result → prefix_len is_still_literal piece.now ≡ 0 }
{
    match piece.split_first() {
        Some((first, _)) => *first == b']',
        None => false,
    }
}

/// Whether the piece begins with a `<` or a `&`, which are not literal.
#[inline]
pub(crate) fn begins_with_markup(piece: &[u8]) -> bool
    ensures { IsTrue result → prefix_len is_still_literal piece.now ≡ 0 }
{
    match piece.split_first() {
        Some((first, _)) => *first == b'<' || *first == b'&',
        None => false,
    }
}

/// How many `]` are at the front of the piece.
pub(crate) fn bracket_length(piece: &[u8]) -> usize
    ensures within { result ≤ length piece.now }
    ensures only { IsBracketRun (take result piece.now) result }
{
    let mut count = 0_usize;
    let mut rest = piece;
    while let Some((first, behind)) = rest.split_first() {
        if *first != b']' {
            return count;
        }
        count += 1;
        rest = behind;
    }
    count
}

/// How many bytes at the front of the piece are `]` with one character behind them that stands by
/// itself; 0 where either is missing.
pub(crate) fn closed_length(piece: &[u8]) -> usize
    ensures within { result ≤ length piece.now }
    ensures only { 0 < result → IsClosedRun (take result piece.now) result }
{
    let count = bracket_length(piece);
    if count == 0 {
        return 0;
    }
    let (_, behind) = piece.split_at(count);
    let Some((next, _)) = behind.split_first() else {
        return 0;
    };
    if is_literal_byte(*next) { count + 1 } else { 0 }
}
