//! The tokens of a pattern's text.
ghost use Rattle.std.specs.Prelude.{◌≡◌, ◌++◌, Some, OnOk, IfOk};
ghost use Rattle.pattern_match.specs.Tokens.{outside_tokens, behind_atom_tokens, escape_tokens, least_tokens, most_tokens, item_tokens, single_tokens, dash_tokens, class_escape_tokens, range_escape_tokens, emits, emit_tokens};

use crate::character::{
    BehindBackslash, InNumber, Outside, Within, escaped_char, meaning_behind_backslash,
    meaning_in_number, meaning_outside, meaning_within,
};
use crate::control::{Control, FULL, control_after};
use crate::token::Token;
use std::alloc::{AllocError, Global};

/// Pushes the token of a character at the start of a piece, if it is one by itself.
fn push_outside(tokens: &mut Vec<Token>, meaning: Outside, c: char) -> Result<(), AllocError>
    ensures { OnOk result (tokens.new.items ≡ tokens.old.items ++ outside_tokens meaning c) }
{
    match meaning {
        Outside::Ordinary => tokens.push(Token::Single(c))?,
        Outside::Dot => tokens.push(Token::Dot)?,
        Outside::OpenGroup => tokens.push(Token::Open)?,
        Outside::CloseGroup => tokens.push(Token::Close)?,
        Outside::Bar => tokens.push(Token::Bar)?,
        _ => {}
    }
    Ok(())
}

/// Pushes the token of a character behind an atom: that of a quantifier, or as at the start of a piece.
fn push_behind_atom(tokens: &mut Vec<Token>, meaning: Outside, c: char) -> Result<(), AllocError>
    ensures { OnOk result (tokens.new.items ≡ tokens.old.items ++ behind_atom_tokens meaning c) }
{
    match meaning {
        Outside::Optional => tokens.push(Token::Times {
            least: 0,
            most: Some(1),
        })?,
        Outside::AnyNumber => tokens.push(Token::Times {
            least: 0,
            most: None,
        })?,
        Outside::OneOrMore => tokens.push(Token::Times {
            least: 1,
            most: None,
        })?,
        _ => push_outside(tokens, meaning, c)?,
    }
    Ok(())
}

/// Pushes the token of an escape outside a class.
fn push_escape(tokens: &mut Vec<Token>, meaning: BehindBackslash, c: char) -> Result<(), AllocError>
    ensures { OnOk result (tokens.new.items ≡ tokens.old.items ++ escape_tokens meaning c) }
{
    match meaning {
        BehindBackslash::Space => tokens.push(Token::Spaces)?,
        BehindBackslash::Letter => tokens.push(Token::Single(escaped_char(c)))?,
        BehindBackslash::Stray => {}
    }
    Ok(())
}

/// Pushes the quantifier of one bound, where the character closes it: so many and no more.
fn push_least(tokens: &mut Vec<Token>, value: u64, meaning: InNumber) -> Result<(), AllocError>
    ensures { OnOk result (tokens.new.items ≡ tokens.old.items ++ least_tokens value meaning) }
{
    if let InNumber::CloseBounds = meaning {
        tokens.push(Token::Times {
            least: value,
            most: Some(value),
        })?;
    }
    Ok(())
}

/// Pushes the quantifier of two bounds, where the character closes them; without digits the second is none.
fn push_most(
    tokens: &mut Vec<Token>,
    least: u64,
    weight: u64,
    value: u64,
    meaning: InNumber,
) -> Result<(), AllocError>
    ensures { OnOk result (tokens.new.items ≡ tokens.old.items ++ most_tokens least weight value meaning) }
{
    if let InNumber::CloseBounds = meaning {
        let most = if weight == FULL { None } else { Some(value) };
        tokens.push(Token::Times { least, most })?;
    }
    Ok(())
}

/// Pushes the member that a character is where an item of a class may begin, if it is one.
fn push_item(tokens: &mut Vec<Token>, meaning: Within, c: char) -> Result<(), AllocError>
    ensures { OnOk result (tokens.new.items ≡ tokens.old.items ++ item_tokens meaning c) }
{
    match meaning {
        Within::Plain => tokens.push(Token::Member { low: c, high: c })?,
        Within::Hyphen => tokens.push(Token::Member {
            low: '-',
            high: '-',
        })?,
        _ => {}
    }
    Ok(())
}

/// Pushes the start of a class, and its first member, where the character is that and no circumflex.
fn push_class_start(tokens: &mut Vec<Token>, c: char) -> Result<(), AllocError>
    ensures { OnOk result (tokens.new.items ≡ tokens.old.items ++ emits Control.ClassStart c) }
{
    if c == '^' {
        tokens.push(Token::ClassStart { negated: true })?;
    } else {
        tokens.push(Token::ClassStart { negated: false })?;
        push_item(tokens, meaning_within(c), c)?;
    }
    Ok(())
}

/// Pushes the member that a character is behind a single of a class, if it is one.
fn push_single(tokens: &mut Vec<Token>, meaning: Within, c: char) -> Result<(), AllocError>
    ensures { OnOk result (tokens.new.items ≡ tokens.old.items ++ single_tokens meaning c) }
{
    if let Within::Plain = meaning {
        tokens.push(Token::Member { low: c, high: c })?;
    }
    Ok(())
}

/// Pushes the range that the character ends behind a single and a hyphen, or the hyphen where it closes the class.
fn push_dash(tokens: &mut Vec<Token>, low: char, meaning: Within, c: char) -> Result<(), AllocError>
    ensures { OnOk result (tokens.new.items ≡ tokens.old.items ++ dash_tokens low meaning c) }
{
    match meaning {
        Within::Plain => tokens.push(Token::Member { low, high: c })?,
        Within::CloseClass => tokens.push(Token::Member {
            low: '-',
            high: '-',
        })?,
        _ => {}
    }
    Ok(())
}

/// Pushes the members of an escape in a class: those of white space, or the one of the letter.
fn push_class_escape(
    tokens: &mut Vec<Token>,
    meaning: BehindBackslash,
    c: char,
) -> Result<(), AllocError>
    ensures { OnOk result (tokens.new.items ≡ tokens.old.items ++ class_escape_tokens meaning c) }
{
    match meaning {
        BehindBackslash::Space => {
            tokens.push(Token::Member {
                low: ' ',
                high: ' ',
            })?;
            tokens.push(Token::Member {
                low: '\t',
                high: '\n',
            })?;
            tokens.push(Token::Member {
                low: '\r',
                high: '\r',
            })?;
        }
        BehindBackslash::Letter => {
            let single = escaped_char(c);
            tokens.push(Token::Member {
                low: single,
                high: single,
            })?;
        }
        BehindBackslash::Stray => {}
    }
    Ok(())
}

/// Pushes the range that an escape ends, where the letter makes one.
fn push_range_escape(
    tokens: &mut Vec<Token>,
    low: char,
    meaning: BehindBackslash,
    c: char,
) -> Result<(), AllocError>
    ensures { OnOk result (tokens.new.items ≡ tokens.old.items ++ range_escape_tokens low meaning c) }
{
    if let BehindBackslash::Letter = meaning {
        tokens.push(Token::Member {
            low,
            high: escaped_char(c),
        })?;
    }
    Ok(())
}

/// Pushes the tokens that a character ends.
fn push_tokens(tokens: &mut Vec<Token>, control: Control, c: char) -> Result<(), AllocError>
    ensures { OnOk result (tokens.new.items ≡ tokens.old.items ++ emits control c) }
{
    match control {
        Control::Start => push_outside(tokens, meaning_outside(c), c),
        Control::Atom => push_behind_atom(tokens, meaning_outside(c), c),
        Control::Escape => push_escape(tokens, meaning_behind_backslash(c), c),
        Control::Least { value, .. } => push_least(tokens, value, meaning_in_number(c)),
        Control::Most {
            least,
            weight,
            value,
        } => push_most(tokens, least, weight, value, meaning_in_number(c)),
        Control::ClassStart => push_class_start(tokens, c),
        Control::ClassNegated | Control::ClassItem => push_item(tokens, meaning_within(c), c),
        Control::ClassSingle { .. } => push_single(tokens, meaning_within(c), c),
        Control::ClassDash { low } => push_dash(tokens, low, meaning_within(c), c),
        Control::ClassEscape => push_class_escape(tokens, meaning_behind_backslash(c), c),
        Control::RangeEscape { low } => push_range_escape(
            tokens,
            low,
            meaning_behind_backslash(c),
            c,
        ),
        Control::ClassEnd => Ok(()),
    }
}

/// The tokens of characters, up to one that no pattern has there.
pub fn tokens_of(alloc: Global, text: &[char]) -> Result<Vec<Token>, AllocError>
    ensures { IfOk result (λ v. v.items ≡ emit_tokens (Some Control.Start) text.now) }
{
    let mut tokens = Vec::new(alloc);
    let mut control = Control::Start;
    for c in text {
        push_tokens(&mut tokens, control, *c)?;
        match control_after(control, *c) {
            None => return Ok(tokens),
            Some(after) => control = after,
        }
    }
    Ok(tokens)
}
