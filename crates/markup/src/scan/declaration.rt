//! The XML declaration (XML 1.0 §2.8).
ghost use Rattle.std.specs.Prelude.{◌≡◌};
ghost use Rattle.markup.specs.inner.Scans.{declaration_gap_step, field_name_step, field_before_step, field_after_step, field_value_step, field_word_step, field_end_step, field_gap_step, fits_letter, name_word};

use crate::characters::is_blank;
use crate::scan::{Field, Scan, Turn, goes_if};
use crate::word::Word;

/// In white space behind `<?xml`: more of it, or the first letter of `version`.
pub(super) fn declaration_gap(c: char) -> Turn
    ensures { result ≡ declaration_gap_step c }
{
    if is_blank(c) {
        Turn::Goes(Scan::DeclarationGap)
    } else {
        goes_if(c == 'v', Turn::Goes(Scan::FieldName(Field::Version, 1)))
    }
}

impl Field {
    /// The field's name.
    pub(super) fn name(self) -> Word
        ensures { result ≡ name_word self }
    {
        match self {
            Field::Version => Word::Version,
            Field::Encoding => Word::Encoding,
            Field::Standalone => Word::Standalone,
        }
    }
}

/// In a field's name: its next letter, or behind the last white space or `=`.
pub(super) fn field_name(field: Field, at: u8, c: char) -> Turn
    ensures { result ≡ field_name_step field at c }
{
    match field.name().letter(at) {
        Some(letter) => goes_if(c == letter, Turn::Goes(Scan::FieldName(field, at + 1))),
        None => field_before(field, c),
    }
}

/// Behind a field's name: white space, or `=`.
pub(super) fn field_before(field: Field, c: char) -> Turn
    ensures { result ≡ field_before_step field c }
{
    if is_blank(c) {
        Turn::Goes(Scan::FieldBefore(field))
    } else {
        goes_if(c == '=', Turn::Goes(Scan::FieldAfter(field)))
    }
}

/// Behind the `=` of a field: white space, or the quote before its value.
pub(super) fn field_after(field: Field, c: char) -> Turn
    ensures { result ≡ field_after_step field c }
{
    if is_blank(c) {
        Turn::Goes(Scan::FieldAfter(field))
    } else {
        goes_if(
            c == '"' || c == '\'',
            Turn::Goes(Scan::FieldValue(field, c)),
        )
    }
}

/// Behind the quote before a field's value: the first character of `1.0`, of `utf-8` in either case, or of `yes` or `no`.
pub(super) fn field_value(field: Field, quote: char, c: char) -> Turn
    ensures { result ≡ field_value_step field quote c }
{
    match field {
        Field::Version => goes_if(
            c == '1',
            Turn::Goes(Scan::FieldWord(field, Word::One, quote, 1)),
        ),
        Field::Encoding => goes_if(
            c == 'u' || c == 'U',
            Turn::Goes(Scan::FieldWord(field, Word::Utf8, quote, 1)),
        ),
        Field::Standalone => {
            if c == 'y' {
                Turn::Goes(Scan::FieldWord(field, Word::Yes, quote, 1))
            } else {
                goes_if(
                    c == 'n',
                    Turn::Goes(Scan::FieldWord(field, Word::No, quote, 1)),
                )
            }
        }
    }
}

/// Whether the character is the word's letter; those of an encoding are of either case.
pub(super) fn fits(word: Word, letter: char, c: char) -> bool
    ensures { result ≡ fits_letter word letter c }
{
    match word {
        Word::Utf8 => c.to_ascii_lowercase() == letter,
        _ => c == letter,
    }
}

/// In a field's value: its next character, or behind the last the quote that began it.
pub(super) fn field_word(field: Field, word: Word, quote: char, at: u8, c: char) -> Turn
    ensures { result ≡ field_word_step field word quote at c }
{
    match word.letter(at) {
        Some(letter) => goes_if(
            fits(word, letter, c),
            Turn::Goes(Scan::FieldWord(field, word, quote, at + 1)),
        ),
        None => goes_if(c == quote, Turn::Goes(Scan::FieldEnd(field))),
    }
}

/// Behind a field: white space, or the `?` of the declaration's end.
pub(super) fn field_end(field: Field, c: char) -> Turn
    ensures { result ≡ field_end_step field c }
{
    if is_blank(c) {
        Turn::Goes(Scan::FieldGap(field))
    } else {
        goes_if(c == '?', Turn::Goes(Scan::DeclarationMark))
    }
}

/// In white space behind a field: the first letter of one that may follow it, or as right behind the field.
pub(super) fn field_gap(field: Field, c: char) -> Turn
    ensures { result ≡ field_gap_step field c }
{
    match field {
        Field::Version => {
            if c == 'e' {
                Turn::Goes(Scan::FieldName(Field::Encoding, 1))
            } else if c == 's' {
                Turn::Goes(Scan::FieldName(Field::Standalone, 1))
            } else {
                field_end(field, c)
            }
        }
        Field::Encoding => {
            if c == 's' {
                Turn::Goes(Scan::FieldName(Field::Standalone, 1))
            } else {
                field_end(field, c)
            }
        }
        Field::Standalone => field_end(field, c),
    }
}
