//! Where the reading of a pattern stands, and how a character leads on: XML Schema part 2, appendix F.
ghost use Rattle.std.specs.Prelude.{◌≡◌, ◌<◌, ◌^◌};
ghost use Rattle.pattern_match.specs.Control.{outside_next, atom_next, escape_next, least_next, most_next, class_first_next, class_item_next, class_single_next, class_dash_next, class_end_next, class_escape_next, range_escape_next, next_control, depth_outside, depth_after, next_reading, may_end, HasRoomForDigits, IsSoundControl};

use crate::character::{
    BehindBackslash, InNumber, Outside, Within, escaped_char, meaning_behind_backslash,
    meaning_in_number, meaning_outside, meaning_within,
};

/// What stands before the next character.
#[derive(Clone, Copy, Drop)]
pub enum Control {
    /// The start of a piece.
    Start,
    /// An atom, which a quantifier may follow.
    Atom,
    /// A backslash outside a class.
    Escape,
    /// The first bound, or its opening brace. Its digits stand for `value`, and `weight` is 10^9 divided by 10 for each of them.
    Least { weight: u64, value: u64 },
    /// The first bound, a comma, and maybe digits of the second.
    Most { least: u64, weight: u64, value: u64 },
    /// The opening bracket of a class.
    ClassStart,
    /// The opening bracket and a circumflex.
    ClassNegated,
    /// An item of a class that begins no range.
    ClassItem,
    /// A single of a class, which may begin a range.
    ClassSingle { low: char },
    /// A single and a hyphen.
    ClassDash { low: char },
    /// A backslash where an item of a class begins.
    ClassEscape,
    /// A backslash where the end of a range begins.
    RangeEscape { low: char },
    /// A hyphen that ends a class.
    ClassEnd,
}

/// Where the reading of a pattern stands: what stands before, and how many groups are open.
#[derive(Clone, Copy, Drop)]
pub struct Reading {
    pub control: Control,
    pub depth: u64,
}

/// What no digits of a bound weigh: 10^9.
pub const FULL: u64 = 1_000_000_000;

/// The greatest character that has an escape: `}`.
const LAST_ESCAPED: char = '}';

/// From the start of a piece: no quantifier stands there.
fn next_outside(meaning: Outside) -> Option<Control>
    ensures { result ≡ outside_next meaning }
{
    match meaning {
        Outside::Ordinary | Outside::Dot | Outside::CloseGroup => Some(Control::Atom),
        Outside::Backslash => Some(Control::Escape),
        Outside::OpenClass => Some(Control::ClassStart),
        Outside::OpenGroup | Outside::Bar => Some(Control::Start),
        _ => None,
    }
}

/// From behind an atom: to a quantifier, or on as from the start of a piece.
fn next_atom(meaning: Outside) -> Option<Control>
    ensures { result ≡ atom_next meaning }
{
    match meaning {
        Outside::Optional | Outside::AnyNumber | Outside::OneOrMore => Some(Control::Start),
        Outside::OpenBounds => Some(Control::Least {
            weight: FULL,
            value: 0,
        }),
        _ => next_outside(meaning),
    }
}

/// From behind a backslash outside a class: each escape is an atom.
fn next_escape(meaning: BehindBackslash) -> Option<Control>
    ensures { result ≡ escape_next meaning }
{
    match meaning {
        BehindBackslash::Stray => None,
        _ => Some(Control::Atom),
    }
}

/// In the first bound: it has one digit to nine, and a comma or the closing brace behind them.
fn next_least(weight: u64, value: u64, meaning: InNumber) -> Option<Control>
    requires { HasRoomForDigits weight value }
    ensures { result ≡ least_next weight value meaning }
{
    match meaning {
        InNumber::Digit(digit) => {
            if weight < 10 {
                return None;
            }
            Some(Control::Least {
                weight: weight / 10,
                value: 10 * value + u64::from(digit),
            })
        }
        InNumber::CloseBounds if weight < FULL => Some(Control::Start),
        InNumber::Comma if weight < FULL => Some(Control::Most {
            least: value,
            weight: FULL,
            value: 0,
        }),
        _ => None,
    }
}

/// In the second bound: some number of nine digits at most goes on so and is not below the first, or none is given.
fn next_most(least: u64, weight: u64, value: u64, meaning: InNumber) -> Option<Control>
    requires { HasRoomForDigits weight value }
    ensures { result ≡ most_next least weight value meaning }
{
    match meaning {
        InNumber::Digit(digit) => {
            if weight < 10 {
                return None;
            }
            let weight = weight / 10;
            let value = 10 * value + u64::from(digit);
            if least < (value + 1) * weight {
                Some(Control::Most {
                    least,
                    weight,
                    value,
                })
            } else {
                None
            }
        }
        InNumber::CloseBounds if weight == FULL || least <= value => Some(Control::Start),
        _ => None,
    }
}

/// From where the first item of a class begins: a hyphen is an item, and no bracket closes the class.
fn next_class_first(meaning: Within, c: char) -> Option<Control>
    ensures { result ≡ class_first_next meaning c }
{
    match meaning {
        Within::Plain => Some(Control::ClassSingle { low: c }),
        Within::Backslash => Some(Control::ClassEscape),
        Within::Hyphen => Some(Control::ClassItem),
        _ => None,
    }
}

/// From where an item of a class may begin: a hyphen ends the class.
fn next_class_item(meaning: Within, c: char) -> Option<Control>
    ensures { result ≡ class_item_next meaning c }
{
    match meaning {
        Within::Plain => Some(Control::ClassSingle { low: c }),
        Within::Backslash => Some(Control::ClassEscape),
        Within::Hyphen => Some(Control::ClassEnd),
        Within::CloseClass => Some(Control::Atom),
        Within::Stray => None,
    }
}

/// From behind a single of a class: a hyphen may make it the start of a range.
fn next_class_single(low: char, meaning: Within, c: char) -> Option<Control>
    ensures { result ≡ class_single_next low meaning c }
{
    match meaning {
        Within::Plain => Some(Control::ClassSingle { low: c }),
        Within::Backslash => Some(Control::ClassEscape),
        Within::Hyphen => Some(Control::ClassDash { low }),
        Within::CloseClass => Some(Control::Atom),
        Within::Stray => None,
    }
}

/// From behind a single and a hyphen: to the end of a range, which is not below its start, or the end of the class.
fn next_class_dash(low: char, meaning: Within, c: char) -> Option<Control>
    ensures { result ≡ class_dash_next low meaning c }
{
    match meaning {
        Within::Plain if low <= c => Some(Control::ClassItem),
        Within::Backslash if low <= LAST_ESCAPED => Some(Control::RangeEscape { low }),
        Within::CloseClass => Some(Control::Atom),
        _ => None,
    }
}

/// From behind a hyphen that ends a class: to the closing bracket alone.
fn next_class_end(meaning: Within) -> Option<Control>
    ensures { result ≡ class_end_next meaning }
{
    match meaning {
        Within::CloseClass => Some(Control::Atom),
        _ => None,
    }
}

/// From behind a backslash in a class: a letter makes a single, which may begin a range, and `s` does not.
fn next_class_escape(meaning: BehindBackslash, c: char) -> Option<Control>
    ensures { result ≡ class_escape_next meaning c }
{
    match meaning {
        BehindBackslash::Space => Some(Control::ClassItem),
        BehindBackslash::Letter => Some(Control::ClassSingle {
            low: escaped_char(c),
        }),
        BehindBackslash::Stray => None,
    }
}

/// From behind a backslash where a range ends: to a letter whose character is not below the start of the range.
fn next_range_escape(low: char, meaning: BehindBackslash, c: char) -> Option<Control>
    ensures { result ≡ range_escape_next low meaning c }
{
    match meaning {
        BehindBackslash::Letter if low <= escaped_char(c) => Some(Control::ClassItem),
        _ => None,
    }
}

/// What stands before the character after `c`, or none where no pattern goes on so in any group.
pub fn control_after(control: Control, c: char) -> Option<Control>
    requires { IsSoundControl control }
    ensures { result ≡ next_control control c }
{
    match control {
        Control::Start => next_outside(meaning_outside(c)),
        Control::Atom => next_atom(meaning_outside(c)),
        Control::Escape => next_escape(meaning_behind_backslash(c)),
        Control::Least { weight, value } => next_least(weight, value, meaning_in_number(c)),
        Control::Most {
            least,
            weight,
            value,
        } => next_most(least, weight, value, meaning_in_number(c)),
        Control::ClassStart => {
            if c == '^' {
                Some(Control::ClassNegated)
            } else {
                next_class_first(meaning_within(c), c)
            }
        }
        Control::ClassNegated => next_class_first(meaning_within(c), c),
        Control::ClassItem => next_class_item(meaning_within(c), c),
        Control::ClassSingle { low } => next_class_single(low, meaning_within(c), c),
        Control::ClassDash { low } => next_class_dash(low, meaning_within(c), c),
        Control::ClassEscape => next_class_escape(meaning_behind_backslash(c), c),
        Control::RangeEscape { low } => next_range_escape(low, meaning_behind_backslash(c), c),
        Control::ClassEnd => next_class_end(meaning_within(c)),
    }
}

/// How many groups are open behind a character outside a class, or none where none is open to be closed.
fn depth_outside_after(meaning: Outside, depth: u64) -> Option<u64>
    requires { depth < 2 ^ 63 }
    ensures { result ≡ depth_outside meaning depth }
{
    match meaning {
        Outside::OpenGroup => Some(depth + 1),
        Outside::CloseGroup => { if depth == 0 { None } else { Some(depth - 1) } }
        _ => Some(depth),
    }
}

/// How many groups are open behind `c`, or none where none is open to be closed.
fn groups_after(control: Control, c: char, depth: u64) -> Option<u64>
    requires { depth < 2 ^ 63 }
    ensures { result ≡ depth_after control c depth }
{
    match control {
        Control::Start | Control::Atom => depth_outside_after(meaning_outside(c), depth),
        _ => Some(depth),
    }
}

/// Where the reading stands behind `c`, or none where no pattern goes on so.
pub fn reading_after(at: Reading, c: char) -> Option<Reading>
    requires sound { IsSoundControl at.control }
    requires depth { at.depth < 2 ^ 63 }
    ensures { result ≡ next_reading at c }
{
    let control = control_after(at.control, c)?;
    let depth = groups_after(at.control, c, at.depth)?;
    Some(Reading { control, depth })
}

/// Whether a pattern may end where the reading stands.
pub fn is_end(at: Reading) -> bool
    ensures { result ≡ may_end at }
{
    match at.control {
        Control::Start | Control::Atom => at.depth == 0,
        _ => false,
    }
}
