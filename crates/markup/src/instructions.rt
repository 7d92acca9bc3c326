//! Whole processing instructions at the front of a piece (XML 1.0 §2.6).
ghost use Rattle.std.specs.Prelude.{◌≡◌, ◌<◌, ◌≤◌, ◌++◌, ℕ, List, IfSome, IsSome, true, false, length, take};
ghost use Rattle.std.specs.List.{list_all, prefix_len};
ghost use Rattle.markup.specs.Ascii.{is_ascii};
ghost use Rattle.markup.specs.PlainTags.{continues_plain, is_plain_name};
ghost use Rattle.markup.specs.Token.{Instruction, is_instruction, is_xml_word, token_bytes};
ghost use Rattle.markup.specs.inner.AsideTexts.{instruction_end, is_behind_target, is_plain_target, IsTextEnded, IsEndedTextAt, IsAsideAt};
ghost use Rattle.markup.specs.declared.scan.Ended.TheVariants.{Passed as PassedEnded};

use crate::classes::{Blank, Passed};
use crate::passed_texts::text_size;
use crate::plain_tag::{begins_plain, name_length};
use crate::references::begins_with;
use lexical_core::ByteClass;

/// Whether the letters are `xml`, each in either case, which no target is (XML 1.0 §2.6, PITarget).
fn is_xml_word(letters: &[u8]) -> bool
    ensures { result ≡ is_xml_word letters.now }
{
    letters.len() == 3
        && letters[0].to_ascii_lowercase() == b'x'
        && letters[1].to_ascii_lowercase() == b'm'
        && letters[2].to_ascii_lowercase() == b'l'
}

/// How many bytes the plain target at the front of the piece has, 0 where none stands there.
#[inline]
fn target_size(piece: &[u8]) -> usize
    ensures within { result ≤ length piece.now }
    ensures named { 0 < result → is_plain_target (take result piece.now) ≡ true }
    ensures all { (target behind : List ℕ) → is_plain_target target ≡ true → piece.now ≡ target ++ behind → prefix_len continues_plain behind ≡ 0 → (result ≡ length target) × (0 < result) }
{
    let Some((first, _)) = piece.split_first() else {
        return 0;
    };
    if !begins_plain(*first) {
        return 0;
    }
    let size = name_length(piece);
    let (target, _) = piece.split_at(size);
    if is_xml_word(target) { 0 } else { size }
}

/// How many bytes there are behind a target up to the end of its instruction and with it, where both stand whole there.
#[inline]
fn behind_target_size(piece: &[u8]) -> Option<usize>
    ensures only { IfSome result (λ n. IsEndedTextAt is_behind_target instruction_end piece.now n) }
    ensures all { (text after : List ℕ) → list_all is_ascii text ≡ true → IsTextEnded is_behind_target instruction_end piece.now text after → IsSome result }
{
    if begins_with(piece, b"?>") {
        return Some(2);
    }
    let Some((first, _)) = piece.split_first() else {
        return None;
    };
    if !Blank.has(*first) {
        return None;
    }
    text_size(Passed::Instruction, piece)
}

/// How many bytes the instruction has that stands whole at the front of the piece, where its target is plain.
pub(crate) fn instruction_size(piece: &[u8]) -> Option<usize>
    ensures only { IfSome result (λ n. IsAsideAt false piece.now PassedEnded n) }
    ensures all { (target text rest : List ℕ) → is_instruction target text ≡ true → is_plain_name target ≡ true → list_all is_ascii text ≡ true → piece.now ≡ token_bytes (Instruction target text) ++ rest → IsSome result }
{
    if !begins_with(piece, b"<?") {
        return None;
    }
    let (_, named) = piece.split_at(2);
    let target = target_size(named);
    if target == 0 {
        return None;
    }
    let (_, behind) = named.split_at(target);
    match behind_target_size(behind) {
        Some(size) => Some(target + size + 2),
        None => None,
    }
}
