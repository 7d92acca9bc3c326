//! References, read a character at a time (XML 1.0 §4.1).
ghost use Rattle.std.specs.Prelude.{◌≡◌, ◌≤◌};
ghost use Rattle.markup.specs.inner.ReferenceScans.{digit_step, numbered_char, entity_char_of, word_step, digits_step, reference_step};

use crate::characters::is_allowed;
use crate::word::Word;

/// How far a reference has come, behind its `&`.
#[derive(Clone, Copy)]
pub(crate) enum ReferenceScan {
    /// Nothing yet.
    Begun,
    /// An `a`, of `amp` or `apos`.
    LetterA,
    /// So many letters of the entity's name.
    Name(Word, u8),
    /// A `#`.
    Hash,
    /// `#x`.
    HashX,
    /// A number so far, in decimal digits.
    Decimal(u32),
    /// A number so far, in hexadecimal digits.
    Hexadecimal(u32),
}

/// What a character makes of a reference.
#[derive(Clone, Copy)]
pub(crate) enum ReferenceTurn {
    /// It goes on.
    Continues(ReferenceScan),
    /// It has ended, and gives the character.
    Gives(char),
    /// No reference goes on so.
    Breaks,
}

impl ReferenceScan {
    /// What the character makes of the reference.
    pub(crate) fn step(self, c: char) -> ReferenceTurn
        ensures { result ≡ reference_step self c }
    {
        match self {
            ReferenceScan::Begun => match c {
                'a' => ReferenceTurn::Continues(ReferenceScan::LetterA),
                'l' => ReferenceTurn::Continues(ReferenceScan::Name(Word::Less, 1)),
                'g' => ReferenceTurn::Continues(ReferenceScan::Name(Word::Greater, 1)),
                'q' => ReferenceTurn::Continues(ReferenceScan::Name(Word::Quote, 1)),
                '#' => ReferenceTurn::Continues(ReferenceScan::Hash),
                _ => ReferenceTurn::Breaks,
            },
            ReferenceScan::LetterA => match c {
                'm' => ReferenceTurn::Continues(ReferenceScan::Name(Word::Ampersand, 2)),
                'p' => ReferenceTurn::Continues(ReferenceScan::Name(Word::Apostrophe, 2)),
                _ => ReferenceTurn::Breaks,
            },
            ReferenceScan::Name(word, at) => in_name(word, at, c),
            ReferenceScan::Hash => match c {
                'x' => ReferenceTurn::Continues(ReferenceScan::HashX),
                _ => match with_digit(10, 0, c) {
                    Some(number) => ReferenceTurn::Continues(ReferenceScan::Decimal(number)),
                    None => ReferenceTurn::Breaks,
                },
            },
            ReferenceScan::HashX => match with_digit(16, 0, c) {
                Some(number) => ReferenceTurn::Continues(ReferenceScan::Hexadecimal(number)),
                None => ReferenceTurn::Breaks,
            },
            ReferenceScan::Decimal(number) => match with_digit(10, number, c) {
                Some(next) => ReferenceTurn::Continues(ReferenceScan::Decimal(next)),
                None => behind_digits(number, c),
            },
            ReferenceScan::Hexadecimal(number) => match with_digit(16, number, c) {
                Some(next) => ReferenceTurn::Continues(ReferenceScan::Hexadecimal(next)),
                None => behind_digits(number, c),
            },
        }
    }
}

/// The entity's name goes on with its next letter, and a semicolon ends it.
fn in_name(word: Word, at: u8, c: char) -> ReferenceTurn
    ensures { result ≡ word_step word at c }
{
    match word.letter(at) {
        Some(letter) => {
            if c == letter {
                ReferenceTurn::Continues(ReferenceScan::Name(word, at + 1))
            } else {
                ReferenceTurn::Breaks
            }
        }
        None => {
            if c == ';' {
                ReferenceTurn::Gives(entity(word))
            } else {
                ReferenceTurn::Breaks
            }
        }
    }
}

/// A semicolon ends the number of an XML character.
fn behind_digits(number: u32, c: char) -> ReferenceTurn
    ensures { result ≡ digits_step number c }
{
    if c != ';' {
        return ReferenceTurn::Breaks;
    }
    match character(number) {
        Some(given) => ReferenceTurn::Gives(given),
        None => ReferenceTurn::Breaks,
    }
}

/// The XML character of this number.
pub(crate) fn character(number: u32) -> Option<char>
    ensures { result ≡ numbered_char number }
{
    match char::from_u32(number) {
        Some(c) => { if is_allowed(c) { Some(c) } else { None } }
        None => None,
    }
}

/// The number with one more digit, where it is no more than the last code point.
#[inline]
pub(crate) fn with_digit(radix: u32, number: u32, c: char) -> Option<u32>
    requires low { 2 ≤ radix }
    requires high { radix ≤ 36 }
    ensures { result ≡ digit_step radix number c }
{
    let digit = c.to_digit(radix)?;
    let next = u64::from(number) * u64::from(radix) + u64::from(digit);
    if next <= 0x10_FFFF {
        Some(next as u32)
    } else {
        None
    }
}

/// The character that the entity of this name stands for (XML 1.0 §4.6).
fn entity(word: Word) -> char
    ensures { result ≡ entity_char_of word }
{
    match word {
        Word::Less => '<',
        Word::Greater => '>',
        Word::Apostrophe => '\'',
        Word::Quote => '"',
        _ => '&',
    }
}
