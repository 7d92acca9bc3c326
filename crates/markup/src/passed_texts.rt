//! Texts of comments and instructions up to their ends (XML 1.0 §2.5, §2.6).
ghost use Rattle.std.specs.Prelude.{◌≡◌, ◌<◌, ◌≤◌, ◌∷◌, ◌++◌, ◌+◌, ℕ, List, IfSome, IsSome, IsTrue, true, length, drop};
ghost use Rattle.std.specs.List.{list_all};
ghost use Rattle.markup.specs.Ascii.{is_ascii};
ghost use Rattle.markup.specs.inner.AsideTexts.{is_text_of, text_end, behind_mark, IsTextEnded, IsEndedTextAt, LeadsToEnd};

use crate::classes::Passed;
use crate::literals::wide_size;
use crate::references::begins_with;
use lexical_core::{ByteClass, run_length};

/// How many bytes the end of such a token has that stands at the front of the piece, 0 where none does.
#[inline]
fn end_size(kind: Passed, piece: &[u8]) -> usize
    ensures found { 0 < result → (rest : List ℕ) × (piece.now ≡ text_end kind ++ rest) × (result + length rest ≡ length piece.now) }
    ensures all { (rest : List ℕ) → piece.now ≡ text_end kind ++ rest → 0 < result }
{
    match kind {
        Passed::Comment => { if begins_with(piece, b"-->") { 3 } else { 0 } }
        Passed::Instruction => { if begins_with(piece, b"?>") { 2 } else { 0 } }
    }
}

/// Whether the byte stands at the front of the piece behind which the mark of an end is no character of the text: a second
/// hyphen of a comment, the `>` of an instruction.
#[inline]
fn is_behind_mark(kind: Passed, piece: &[u8]) -> bool
    ensures found { IsTrue result → (rest : List ℕ) × (piece.now ≡ behind_mark kind ∷ rest) }
    ensures all { (rest : List ℕ) → piece.now ≡ behind_mark kind ∷ rest → IsTrue result }
{
    match kind {
        Passed::Comment => begins_with(piece, b"-"),
        Passed::Instruction => begins_with(piece, b">"),
    }
}

/// How many bytes the character at the front of the piece has, with which the text goes on and does not begin its end; 0
/// where none stands there.
#[inline]
fn text_step(kind: Passed, piece: &[u8]) -> usize
    ensures within { result ≤ length piece.now }
    ensures leads { 0 < result → LeadsToEnd (is_text_of kind) (text_end kind) piece.now (drop result piece.now) }
    ensures all { (c : ℕ) (text after : List ℕ) → is_ascii c ≡ true → IsTextEnded (is_text_of kind) (text_end kind) piece.now (c ∷ text) after → 0 < result }
{
    let Some((first, behind)) = piece.split_first() else {
        return 0;
    };
    if *first == kind.end() {
        return if is_behind_mark(kind, behind) { 0 } else { 1 };
    }
    if *first <= 0x7F {
        return if kind.has(*first) { 1 } else { 0 };
    }
    match wide_size(piece) {
        Some(size) => size,
        None => 0,
    }
}

/// How many bytes the text at the front of the piece has with its end, where both stand whole there.
pub(crate) fn text_size(kind: Passed, piece: &[u8]) -> Option<usize>
    ensures only { IfSome result (λ n. IsEndedTextAt (is_text_of kind) (text_end kind) piece.now n) }
    ensures all { (text after : List ℕ) → list_all is_ascii text ≡ true → IsTextEnded (is_text_of kind) (text_end kind) piece.now text after → IsSome result }
{
    let mut rest = piece;
    loop {
        let (_, behind) = rest.split_at(run_length(&kind, rest));
        let end = end_size(kind, behind);
        if end > 0 {
            return Some(piece.len() - behind.len() + end);
        }
        let size = text_step(kind, behind);
        if size == 0 {
            return None;
        }
        let (_, after) = behind.split_at(size);
        rest = after;
    }
}
