//! Whether the facets of an object are out of bounds.
ghost use Rattle.std.specs.Prelude.{◌≡◌, ◌↔◌, [], IsTrue, true, false, ◌⊎◌};
ghost use Rattle.reference_check.specs.Rules.{set_codes};
ghost use Rattle.message_model.specs.FacetRules.{HasBadLengths, HasBadDigits, HasBadBounds, HasBadFacets, AreBoth, HoldNothing, IsAboveIfAny, total_of};

use lexical_core::Decimal;
use repo_objects::{Kinds, Object, ObjectKind, RawFacets};

/// The most digits of a number, where no facet says less.
pub(crate) const MOST_DIGITS: u32 = 18;

/// Whether the object is a code set that has codes.
pub(crate) fn has_codes(object: &Object) -> bool
    ensures none { result ≡ false → set_codes object.now ≡ [] }
    ensures some { result ≡ true → set_codes object.now ≡ object.now.codes }
    ensures not_empty { result ≡ true → set_codes object.now ≡ [] → ⊥ }
{
    match object.kind {
        ObjectKind::Simple(Kinds::CodeSet) => !object.codes.is_empty(),
        _ => false,
    }
}

/// Whether the facets of the object are out of bounds.
pub(crate) fn has_bad_facets(object: &Object) -> bool
    ensures { IsTrue result ↔ HasBadFacets object.now }
{
    if has_codes(object) {
        return false;
    }
    is_out_of_bounds(&object.facets)
}

/// Whether facets are out of bounds.
fn is_out_of_bounds(facets: &RawFacets) -> bool
    ensures { IsTrue result ↔ (HasBadLengths facets.now ⊎ HasBadDigits facets.now ⊎ HasBadBounds facets.now) }
{
    has_bad_lengths(facets) || has_bad_digits(facets) || has_bad_bounds(facets)
}

/// Whether a least length is above a greatest; `length` is both.
fn has_bad_lengths(facets: &RawFacets) -> bool
    ensures { IsTrue result ↔ HasBadLengths facets.now }
{
    is_above(facets.min_length, facets.max_length)
        || is_above(facets.min_length, facets.length)
        || is_above(facets.length, facets.max_length)
}

/// Whether both are given, and the first is above the second.
fn is_above(low: Option<u32>, high: Option<u32>) -> bool
    ensures { IsTrue result ↔ IsAboveIfAny low high }
{
    match (low, high) {
        (Some(low), Some(high)) => high < low,
        _ => false,
    }
}

/// Whether there is no digit, or more than 18, or more after the point than there are in all.
fn has_bad_digits(facets: &RawFacets) -> bool
    ensures { IsTrue result ↔ HasBadDigits facets.now }
{
    let total = most_digits(facets.total);
    total == 0 || total > MOST_DIGITS || is_above(facets.fraction, Some(total))
}

/// The number of digits; where it is absent, 18.
pub(crate) fn most_digits(total: Option<u32>) -> u32
    ensures { result ≡ total_of total }
{
    match total {
        Some(total) => total,
        None => MOST_DIGITS,
    }
}

/// Whether one side has an inclusive and a strict bound, or no number is between a lower and an upper one.
fn has_bad_bounds(facets: &RawFacets) -> bool
    ensures { IsTrue result ↔ HasBadBounds facets.now }
{
    are_both(facets.min_in, facets.min_ex)
        || are_both(facets.max_in, facets.max_ex)
        || hold_nothing(facets.min_in, facets.max_in, false)
        || hold_nothing(facets.min_in, facets.max_ex, true)
        || hold_nothing(facets.min_ex, facets.max_in, true)
        || hold_nothing(facets.min_ex, facets.max_ex, true)
}

/// Whether both are given.
fn are_both(inclusive: Option<Decimal>, strict: Option<Decimal>) -> bool
    ensures { IsTrue result ↔ AreBoth inclusive strict }
{
    match (inclusive, strict) {
        (Some(_), Some(_)) => true,
        _ => false,
    }
}

/// Whether both are given, and no number is between them; none is either where they are equal and one is strict.
fn hold_nothing(low: Option<Decimal>, high: Option<Decimal>, strict: bool) -> bool
    ensures { IsTrue result ↔ HoldNothing strict low high }
{
    match (low, high) {
        (Some(low), Some(high)) => high.below(&low) || (strict && low == high),
        _ => false,
    }
}
