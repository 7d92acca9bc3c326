//! Digits and bounds of numbers: XML Schema part 2 §4.3.7 to §4.3.12.
ghost use Rattle.std.specs.Prelude.{◌≡◌, ◌<◌, ◌^◌, ◌↔◌, IsTrue, MatchOption};
ghost use Rattle.std.specs.Int.RustNames.{unsigned_abs};
ghost use Rattle.lexical_core.specs.Decimals.{IsDecimal};
ghost use Rattle.data_types.specs.Leaf.{Number};
ghost use Rattle.data_types.specs.declared.kind.Kind.TheVariants as kind;
ghost use Rattle.facets.specs.Facets.{HasDigits, IsInRange, IsAbove, IsBelow, IsBounded};
ghost use Rattle.facets.specs.Checks.{IsNumberAnswer};
ghost use Rattle.facets.specs.LeafUnder.{Judges};

use crate::simple::{Bound, Simple};
use lexical_core::{Decimal, Rule};

/// Whether a number has the digits of the simple type and is within its bounds. `Digits` where it has too many in all
/// or after the point, and else `OutOfRange` where it is outside the bounds. It takes no memory.
pub fn check_number(simple: &Simple, value: Decimal) -> Result<(), Rule>
    ensures facets { IsNumberAnswer simple.now value result }
    ensures leaf { simple.now.kind ≡ kind.Decimal → Judges simple.now (Number value) result }
{
    if !has_digits(simple, &value) {
        return Err(Rule::Digits);
    }
    if is_in_range(simple, &value) {
        Ok(())
    } else {
        Err(Rule::OutOfRange)
    }
}

/// Whether the number has few enough digits.
fn has_digits(simple: &Simple, value: &Decimal) -> bool
    ensures digits { IsTrue result ↔ HasDigits simple.now value.now }
    ensures decimal { IsDecimal value.now }
{
    let scale = value.scale();
    scale <= simple.total
        && simple.fraction.is_none_or(|fraction| scale <= fraction)
        && has_total(value.whole(), simple.total)
}

/// Whether the number is within its bounds.
fn is_in_range(simple: &Simple, value: &Decimal) -> bool
    ensures { IsTrue result ↔ IsInRange simple.now value.now }
{
    is_above(&simple.low, value) && is_below(&simple.high, value)
}

/// Whether a whole part has at most this many digits.
fn has_total(whole: i64, total: u8) -> bool
    requires { unsigned_abs whole < 10 ^ 18 }
    ensures { IsTrue result ↔ (unsigned_abs whole < 10 ^ total) }
{
    if total >= 18 {
        return true;
    }
    whole.unsigned_abs() < 10u64.pow(u32::from(total))
}

/// Whether the number is above a lower bound, or at one that is not strict.
fn is_above(low: &Option<Bound>, value: &Decimal) -> bool
    ensures { IsTrue result ↔ MatchOption low.now (Unit {0}) (λ bound. IsAbove bound value.now) }
{
    match low {
        Some(bound) => is_bounded(bound.strict, &bound.value, value),
        None => true,
    }
}

/// Whether the number is below an upper bound, or at one that is not strict.
fn is_below(high: &Option<Bound>, value: &Decimal) -> bool
    ensures { IsTrue result ↔ MatchOption high.now (Unit {0}) (λ bound. IsBelow bound value.now) }
{
    match high {
        Some(bound) => is_bounded(bound.strict, value, &bound.value),
        None => true,
    }
}

/// Whether the first number is less than the second, or equal to it where that is allowed.
fn is_bounded(strict: bool, less: &Decimal, more: &Decimal) -> bool
    ensures { IsTrue result ↔ IsBounded strict less.now more.now }
{
    if strict {
        less.below(more)
    } else {
        !more.below(less)
    }
}
