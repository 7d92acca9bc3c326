//! What stands in the DER of a message, as its readers and writers ask it: X.680 §8.4, X.690 §8.9, §8.14.
ghost use Rattle.std.specs.Prelude.{◌≡◌, ◌<◌};
ghost use Rattle.message_model.specs.Tables.{types_of};
ghost use Rattle.der_model.specs.Structures.{is_constructed, is_once, simple_number};

use data_types::Kind;
use facets::Simple;
use message_model::{Form, Model};

/// Whether a slot with this maximum has its value in the place of a list.
pub fn comes_once(max: Option<u32>) -> bool
    ensures { result ≡ is_once max }
{
    match max {
        None => false,
        Some(most) => most == 1,
    }
}

/// Whether a value of the type is constructed: that of a sequence, of a choice or of an amount with a currency.
pub fn is_constructed(model: &Model, number: u32) -> bool
    ensures { result ≡ is_constructed (types_of model.now number) }
{
    match model.form(number) {
        Some(Form::Sequence) => true,
        Some(Form::Choice) => true,
        Some(Form::Money { code: _, base: _ }) => true,
        _ => false,
    }
}

/// The number of the universal tag of a simple type: X.680 §8.4.
pub fn simple_number(simple: &Simple) -> u16
    ensures number { result ≡ simple_number simple.now.kind simple.now.codes }
    ensures short { result < 31 }
{
    match simple.kind {
        Kind::Text if simple.codes.is_some() => 10,
        Kind::Text => 12,
        Kind::Decimal => 9,
        Kind::Boolean => 1,
        Kind::Binary => 4,
        _ => 26,
    }
}
