//! The simple types of data types.
ghost use Rattle.std.specs.Prelude.{◌≡◌, ◌≤◌, ◌<◌, ℕ, List, Some, IfOk, MatchOption, slice_get};
ghost use Rattle.repo_objects.specs.Objects.{IsXmlTextIfAny};
ghost use Rattle.message_model.specs.FacetRules.{HasBadFacets, total_of};
ghost use Rattle.message_model.specs.SimpleTypes.{kind_of as spec_kind_of, base_of as spec_base_of, bound_of as spec_bound_of, faceted_type as spec_faceted, type_of_codes as spec_enumerated, least_length as spec_least_length, greatest_length as spec_greatest_length, facets_of};

use crate::facet_rules::{has_codes, most_digits};
use crate::patterns::pattern_of;
use crate::sorted_codes::sorted_codes;
use data_types::Kind;
use facets::{Bound, Codes, Simple};
use lexical_core::Decimal;
use reference_check::CodeTexts;
use repo_objects::{Kinds, Object, ObjectKind, RawFacets};
use std::alloc::{AllocError, Global};

/// The base of the texts of a data type.
pub(crate) fn kind_of(kind: Kinds) -> Kind
    ensures { result ≡ spec_kind_of kind }
{
    match kind {
        Kinds::Text => Kind::Text,
        Kinds::CodeSet => Kind::Text,
        Kinds::IdentifierSet => Kind::Text,
        Kinds::Amount => Kind::Decimal,
        Kinds::Rate => Kind::Decimal,
        Kinds::Quantity => Kind::Decimal,
        Kinds::Indicator => Kind::Boolean,
        Kinds::Binary => Kind::Binary,
        Kinds::Date => Kind::Date,
        Kinds::DateTime => Kind::DateTime,
        Kinds::Time => Kind::Time,
        Kinds::Year => Kind::Year,
        Kinds::YearMonth => Kind::YearMonth,
        Kinds::MonthDay => Kind::MonthDay,
        Kinds::Month => Kind::Month,
        Kinds::Day => Kind::Day,
    }
}

/// The bound of a side.
fn bound_of(inclusive: Option<Decimal>, strict: Option<Decimal>) -> Option<Bound>
    ensures { result ≡ spec_bound_of inclusive strict }
{
    match (inclusive, strict) {
        (Some(value), _) => Some(Bound {
            value,
            strict: false,
        }),
        (None, Some(value)) => Some(Bound {
            value,
            strict: true,
        }),
        (None, None) => None,
    }
}

/// The base of the texts of an object; none of an object that is no data type.
fn base_of(kind: ObjectKind) -> Kind
    ensures { result ≡ spec_base_of kind }
{
    match kind {
        ObjectKind::Simple(kind) => kind_of(kind),
        _ => Kind::Envelope,
    }
}

/// The least length, in characters or octets.
fn least_length(facets: &RawFacets) -> u64
    ensures { result ≡ spec_least_length facets.now }
{
    match (facets.length, facets.min_length) {
        (Some(length), _) => length as u64,
        (None, Some(length)) => length as u64,
        (None, None) => 0,
    }
}

/// The greatest length.
fn greatest_length(facets: &RawFacets) -> Option<u64>
    ensures { result ≡ spec_greatest_length facets.now }
{
    match (facets.length, facets.max_length) {
        (Some(length), _) => Some(length as u64),
        (None, Some(length)) => Some(length as u64),
        (None, None) => None,
    }
}

/// How many digits there may be after the point.
fn most_fraction(fraction: Option<u32>) -> Option<u8>
    requires { MatchOption fraction (Unit {0}) (λ n. n < 256) }
    ensures { result ≡ fraction }
{
    match fraction {
        Some(fraction) => Some(fraction as u8),
        None => None,
    }
}

/// A data type without codes.
fn faceted(alloc: Global, object: &Object) -> Result<Simple, AllocError>
    requires total { total_of object.now.facets.total ≤ 18 }
    requires fraction { MatchOption object.now.facets.fraction (Unit {0}) (λ n. n < 256) }
    requires text { IsXmlTextIfAny object.now.facets.pattern }
    ensures { IfOk result (λ s. s ≡ spec_faceted object.now) }
{
    let facets = &object.facets;
    let pattern = pattern_of(alloc, object)?;
    Ok(Simple {
        kind: base_of(object.kind),
        min: least_length(facets),
        max: greatest_length(facets),
        total: most_digits(facets.total) as u8,
        fraction: most_fraction(facets.fraction),
        low: bound_of(facets.min_in, facets.min_ex),
        high: bound_of(facets.max_in, facets.max_ex),
        pattern,
        codes: None,
    })
}

/// A set with these codes.
fn enumerated(codes: Codes) -> Simple
    ensures { result ≡ spec_enumerated codes }
{
    Simple {
        kind: Kind::Text,
        min: 0,
        max: None,
        total: 18,
        fraction: None,
        low: None,
        high: None,
        pattern: None,
        codes: Some(codes),
    }
}

/// The simple type of the data type at that place.
pub(crate) fn simple_of(
    alloc: Global,
    texts: &mut CodeTexts<'_>,
    at: usize,
    object: &Object,
) -> Result<Simple, AllocError>
    requires object { (id : List ℕ) × (slice_get texts.old.objects at ≡ Some (record { id = id; object = object.now })) }
    requires facets { HasBadFacets object.now → ⊥ }
    requires text { IsXmlTextIfAny object.now.facets.pattern }
    ensures stays { texts.new ≡ texts.old }
    ensures simple { IfOk result (λ s. s ≡ facets_of texts.old object.now) }
{
    if has_codes(object) {
        return Ok(enumerated(sorted_codes(alloc, texts, at, object)?));
    }
    faceted(alloc, object)
}
