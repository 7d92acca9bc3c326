//! Whole references at the front of a piece (XML 1.0 §4.1).
ghost use Rattle.std.specs.Prelude.{◌≡◌, ◌==◌, ◌||◌, ◌∷◌, ◌++◌, ℕ, List, IfSome, IsSome, IsTrue, true, encode_utf8_all};
ghost use Rattle.markup.specs.Ascii.{semicolon};
ghost use Rattle.markup.specs.Reference.{Reference, Entity, Named, Numbered, is_reference, reference_text};
ghost use Rattle.markup.specs.inner.Numbers.{number_mark};
ghost use Rattle.markup.specs.References.{IsReferenceAt};

use crate::reference::{character, with_digit};

/// A reference to a character.
#[derive(Clone, Copy, Debug, PartialEq, Eq)]
pub struct CharacterReference {
    /// The character that it gives.
    pub character: char,
    /// How many bytes it has.
    pub bytes: usize,
}

/// Whether the piece begins as a reference does.
#[inline]
pub(crate) fn begins_reference(piece: &[u8]) -> bool
    ensures { (reference : Reference) (rest : List ℕ) → is_reference reference ≡ true → piece.now ≡ encode_utf8_all (reference_text reference) ++ rest → IsTrue result }
{
    match piece.split_first() {
        Some((first, _)) => *first == b'&',
        None => false,
    }
}

/// Whether the piece begins with the word.
#[inline]
pub(crate) fn begins_with(piece: &[u8], word: &[u8]) -> bool
    ensures found { IsTrue result → (rest : List ℕ) × (piece.now ≡ word.now ++ rest) }
    ensures all { (rest : List ℕ) → piece.now ≡ word.now ++ rest → IsTrue result }
{
    let mut left = piece;
    let mut letters = word;
    while let Some((letter, others)) = letters.split_first() {
        let Some((byte, behind)) = left.split_first() else {
            return false;
        };
        if *byte != *letter {
            return false;
        }
        left = behind;
        letters = others;
    }
    true
}

/// The reference to an entity at the front of the piece, if one stands there.
#[inline]
fn entity_at(piece: &[u8]) -> Option<CharacterReference>
    ensures only { IfSome result (λ r. IsReferenceAt piece.now r.character r.bytes) }
    ensures all { (entity : Entity) (rest : List ℕ) → piece.now ≡ reference_text (Named entity) ++ rest → IsSome result }
{
    if begins_with(piece, b"&amp;") {
        return Some(CharacterReference {
            character: '&',
            bytes: 5,
        });
    }
    if begins_with(piece, b"&lt;") {
        return Some(CharacterReference {
            character: '<',
            bytes: 4,
        });
    }
    if begins_with(piece, b"&gt;") {
        return Some(CharacterReference {
            character: '>',
            bytes: 4,
        });
    }
    if begins_with(piece, b"&quot;") {
        return Some(CharacterReference {
            character: '"',
            bytes: 6,
        });
    }
    if begins_with(piece, b"&apos;") {
        return Some(CharacterReference {
            character: '\'',
            bytes: 6,
        });
    }
    None
}

/// The reference by number at the front of the piece, whose digits in this radix these bytes begin with.
#[inline]
fn number_at(radix: u32, piece: &[u8], digits: &[u8]) -> Option<CharacterReference>
    requires radix { (radix == 10 || radix == 16) ≡ true }
    requires begun { piece.now ≡ number_mark radix ++ digits.now }
    ensures only { IfSome result (λ r. IsReferenceAt piece.now r.character r.bytes) }
    ensures all { (spelled rest : List ℕ) → is_reference (Numbered radix spelled) ≡ true → digits.now ≡ spelled ++ semicolon ∷ rest → IsSome result }
{
    let mut number = 0_u32;
    let mut rest = digits;
    while let Some((byte, after)) = rest.split_first() {
        let Some(next) = with_digit(radix, number, *byte as char) else {
            if *byte != b';' {
                return None;
            }
            let Some(character) = character(number) else {
                return None;
            };
            return Some(CharacterReference {
                character,
                bytes: piece.len() - after.len(),
            });
        };
        number = next;
        rest = after;
    }
    None
}

/// The reference that stands whole at the front of the piece.
pub(crate) fn reference_at(piece: &[u8]) -> Option<CharacterReference>
    ensures only { IfSome result (λ r. IsReferenceAt piece.now r.character r.bytes) }
    ensures all { (reference : Reference) (rest : List ℕ) → is_reference reference ≡ true → piece.now ≡ encode_utf8_all (reference_text reference) ++ rest → IsSome result }
{
    let Some((first, behind)) = piece.split_first() else {
        return None;
    };
    let Some((second, numbered)) = behind.split_first() else {
        return None;
    };
    if *first != b'&' {
        return None;
    }
    if *second != b'#' {
        return entity_at(piece);
    }
    let Some((third, digits)) = numbered.split_first() else {
        return None;
    };
    if *third == b'x' {
        number_at(16, piece, digits)
    } else {
        number_at(10, piece, numbered)
    }
}
