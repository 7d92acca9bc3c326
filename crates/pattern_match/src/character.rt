//! What a character of a pattern's text means where it stands: XML Schema part 2, appendix F.
ghost use Rattle.std.specs.Prelude.{◌≡◌};
ghost use Rattle.pattern_match.specs.Character.{outside, within, in_number, behind_backslash, is_escape_letter};
ghost use Rattle.pattern_match.specs.Valid.{escaped_letter};

use lexical_core::is_xml_char;

/// Outside a class.
#[derive(Clone, Copy, Drop)]
pub enum Outside {
    Ordinary,
    Dot,
    Backslash,
    OpenClass,
    OpenGroup,
    CloseGroup,
    Bar,
    Optional,
    AnyNumber,
    OneOrMore,
    OpenBounds,
    Stray,
}

/// In a class.
#[derive(Clone, Copy, Drop)]
pub enum Within {
    Plain,
    Backslash,
    Hyphen,
    CloseClass,
    Stray,
}

/// In the bounds of a quantifier.
#[derive(Clone, Copy, Drop)]
pub enum InNumber {
    Digit(u32),
    Comma,
    CloseBounds,
    Stray,
}

/// Behind a backslash.
#[derive(Clone, Copy, Drop)]
pub enum BehindBackslash {
    Space,
    Letter,
    Stray,
}

/// The meaning of a character outside a class.
pub fn meaning_outside(c: char) -> Outside
    ensures { result ≡ outside c }
{
    match c {
        '.' => Outside::Dot,
        '\\' => Outside::Backslash,
        '[' => Outside::OpenClass,
        '(' => Outside::OpenGroup,
        ')' => Outside::CloseGroup,
        '|' => Outside::Bar,
        '?' => Outside::Optional,
        '*' => Outside::AnyNumber,
        '+' => Outside::OneOrMore,
        '{' => Outside::OpenBounds,
        ']' | '}' => Outside::Stray,
        _ => {
            if is_xml_char(c) {
                Outside::Ordinary
            } else {
                Outside::Stray
            }
        }
    }
}

/// The meaning of a character in a class.
pub fn meaning_within(c: char) -> Within
    ensures { result ≡ within c }
{
    match c {
        '\\' => Within::Backslash,
        '-' => Within::Hyphen,
        ']' => Within::CloseClass,
        '[' => Within::Stray,
        _ => {
            if is_xml_char(c) {
                Within::Plain
            } else {
                Within::Stray
            }
        }
    }
}

/// The meaning of a character in the bounds of a quantifier.
pub fn meaning_in_number(c: char) -> InNumber
    ensures { result ≡ in_number c }
{
    match c {
        '0'..='9' => InNumber::Digit(c as u32 - 48),
        ',' => InNumber::Comma,
        '}' => InNumber::CloseBounds,
        _ => InNumber::Stray,
    }
}

/// Whether the letter makes an escape: SingleCharEsc.
fn is_letter(c: char) -> bool
    ensures { result ≡ is_escape_letter c }
{
    matches!(
        c,
        'n' | 'r'
            | 't'
            | '\\'
            | '|'
            | '.'
            | '-'
            | '^'
            | '?'
            | '*'
            | '+'
            | '{'
            | '}'
            | '('
            | ')'
            | '['
            | ']'
    )
}

/// The meaning of a character behind a backslash.
pub fn meaning_behind_backslash(c: char) -> BehindBackslash
    ensures { result ≡ behind_backslash c }
{
    if c == 's' {
        BehindBackslash::Space
    } else if is_letter(c) {
        BehindBackslash::Letter
    } else {
        BehindBackslash::Stray
    }
}

/// The character that an escape of this letter stands for.
pub fn escaped_char(letter: char) -> char
    ensures { result ≡ escaped_letter letter }
{
    match letter {
        'n' => '\n',
        'r' => '\r',
        't' => '\t',
        _ => letter,
    }
}
