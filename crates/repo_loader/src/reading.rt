//! What the attributes of an element say.
ghost use Rattle.std.specs.Prelude.{◌≡◌, IfOk, OnErr, IfErr, map, codes, []};
ghost use Rattle.lexical_core.specs.Names.{attribute_value as spec_value_of};
ghost use Rattle.markup.specs.TagAttributes.{tag_entry};
ghost use Rattle.repo_loader.specs.FileNames.{own};
ghost use Rattle.repo_loader.specs.FileValues.{text_of_attribute as spec_text, reference as spec_reference, facet, count, bound, has_lengths as spec_has_lengths, has_digits as spec_has_digits, least_of, greatest_of, IsCountIfAny, IsBoundIfAny, IsGreatestIfAny, is_endless as spec_is_endless};
ghost use Rattle.repo_loader.specs.File.{facets as spec_facets, element as spec_element, object as spec_object, code as spec_code, message as spec_message, message_identifier as spec_identifier};
ghost use Rattle.repo_loader.specs.FileFaults.{HasFacetNumbers, HasOccurrences};
ghost use Rattle.repo_loader.specs.inner.Stops.{TellsOccurrences, TellsFacets};

use crate::kinds::word_of;
use crate::stop::{BadNumber, Stop};
use crate::values::{bound_of, count_of};
use lexical_core::{Decimal, Text, are_same};
use markup::{TagAttribute, value_of};
use repo_objects::{
    CodeDef, CodeDefs, ElementDef, Elements, Kinds, MessageDef, Object, ObjectKind, RawFacets,
};
use std::alloc::{AllocError, Global};

/// A text of these bytes.
pub fn copied(alloc: Global, bytes: &[u8]) -> Result<Text, AllocError>
    ensures { IfOk result (λ t. t ≡ bytes.now) }
{
    Ok(Text::from_vec(Vec::from_slice(alloc, bytes)?))
}

/// The attribute's text, empty where it is absent.
pub fn text_in(
    alloc: Global,
    attributes: &[TagAttribute<'_>],
    name: &[u8],
) -> Result<Text, AllocError>
    ensures { IfOk result (λ t. t ≡ spec_text name.now (map tag_entry attributes.now)) }
{
    match value_of(attributes, b"", name) {
        Some(value) => copied(alloc, value),
        None => Ok(Text::new(alloc)),
    }
}

/// The attribute's text, where it is there and not empty.
pub fn reference_in(
    alloc: Global,
    attributes: &[TagAttribute<'_>],
    name: &[u8],
) -> Result<Option<Text>, AllocError>
    ensures { IfOk result (λ t. t ≡ spec_reference name.now (map tag_entry attributes.now)) }
{
    let Some(value) = value_of(attributes, b"", name) else {
        return Ok(None);
    };
    if value.is_empty() {
        return Ok(None);
    }
    Ok(Some(copied(alloc, value)?))
}

/// The number of a facet, where the kind has it.
pub fn count_in(
    attributes: &[TagAttribute<'_>],
    has: bool,
    name: &[u8],
) -> Result<Option<u32>, BadNumber>
    ensures ok { IfOk result (λ n. IsCountIfAny (facet has name.now (map tag_entry attributes.now)) × (n ≡ count has name.now (map tag_entry attributes.now))) }
    ensures err { OnErr result (IsCountIfAny (facet has name.now (map tag_entry attributes.now)) → ⊥) }
{
    if !has {
        return Ok(None);
    }
    let Some(text) = value_of(attributes, b"", name) else {
        return Ok(None);
    };
    match count_of(text) {
        Some(number) => Ok(Some(number)),
        None => Err(BadNumber),
    }
}

/// The decimal of a facet, where the kind has it.
pub fn bound_in(
    attributes: &[TagAttribute<'_>],
    has: bool,
    name: &[u8],
) -> Result<Option<Decimal>, BadNumber>
    ensures ok { IfOk result (λ n. IsBoundIfAny (facet has name.now (map tag_entry attributes.now)) × (n ≡ bound has name.now (map tag_entry attributes.now))) }
    ensures err { OnErr result (IsBoundIfAny (facet has name.now (map tag_entry attributes.now)) → ⊥) }
{
    if !has {
        return Ok(None);
    }
    let Some(text) = value_of(attributes, b"", name) else {
        return Ok(None);
    };
    match bound_of(text) {
        Some(number) => Ok(Some(number)),
        None => Err(BadNumber),
    }
}

/// Whether the kind has lengths.
fn has_lengths(kind: ObjectKind) -> bool
    ensures { result ≡ spec_has_lengths kind }
{
    match kind {
        ObjectKind::Simple(simple) => matches!(
            simple,
            Kinds::Text | Kinds::CodeSet | Kinds::IdentifierSet | Kinds::Binary
        ),
        _ => false,
    }
}

/// Whether the kind has digits and bounds.
fn has_digits(kind: ObjectKind) -> bool
    ensures { result ≡ spec_has_digits kind }
{
    match kind {
        ObjectKind::Simple(simple) => matches!(
            simple,
            Kinds::Amount | Kinds::Rate | Kinds::Quantity
        ),
        _ => false,
    }
}

/// The facets of an entry of the kind, with this pattern.
pub fn facets_in(
    attributes: &[TagAttribute<'_>],
    kind: ObjectKind,
    pattern: Option<Text>,
) -> Result<RawFacets, BadNumber>
    requires { pattern ≡ spec_reference (codes "pattern") (map tag_entry attributes.now) }
    ensures ok { IfOk result (λ f. HasFacetNumbers kind (map tag_entry attributes.now) × (f ≡ spec_facets kind (map tag_entry attributes.now))) }
    ensures err { OnErr result (HasFacetNumbers kind (map tag_entry attributes.now) → ⊥) }
{
    let lengths = has_lengths(kind);
    let digits = has_digits(kind);
    Ok(RawFacets {
        min_length: count_in(attributes, lengths, b"minLength")?,
        max_length: count_in(attributes, lengths, b"maxLength")?,
        length: count_in(attributes, lengths, b"length")?,
        total: count_in(attributes, digits, b"totalDigits")?,
        fraction: count_in(attributes, digits, b"fractionDigits")?,
        min_in: bound_in(attributes, digits, b"minInclusive")?,
        min_ex: bound_in(attributes, digits, b"minExclusive")?,
        max_in: bound_in(attributes, digits, b"maxInclusive")?,
        max_ex: bound_in(attributes, digits, b"maxExclusive")?,
        pattern,
    })
}

/// Whether the text stands for no greatest number.
fn is_endless(text: &[u8]) -> bool
    ensures { result ≡ spec_is_endless text.now }
{
    are_same(text, b"-1") || are_same(text, b"*") || are_same(text, b"unbounded")
}

/// `minOccurs`.
fn least_in(attributes: &[TagAttribute<'_>], absent: u32) -> Result<u32, BadNumber>
    ensures ok { IfOk result (λ n. IsCountIfAny (spec_value_of (own (codes "minOccurs")) (map tag_entry attributes.now)) × (n ≡ least_of absent (spec_value_of (own (codes "minOccurs")) (map tag_entry attributes.now)))) }
    ensures err { OnErr result (IsCountIfAny (spec_value_of (own (codes "minOccurs")) (map tag_entry attributes.now)) → ⊥) }
{
    let Some(text) = value_of(attributes, b"", b"minOccurs") else {
        return Ok(absent);
    };
    match count_of(text) {
        Some(number) => Ok(number),
        None => Err(BadNumber),
    }
}

/// `maxOccurs`.
fn greatest_in(attributes: &[TagAttribute<'_>]) -> Result<Option<u32>, BadNumber>
    ensures ok { IfOk result (λ n. IsGreatestIfAny (spec_value_of (own (codes "maxOccurs")) (map tag_entry attributes.now)) × (n ≡ greatest_of (spec_value_of (own (codes "maxOccurs")) (map tag_entry attributes.now)))) }
    ensures err { OnErr result (IsGreatestIfAny (spec_value_of (own (codes "maxOccurs")) (map tag_entry attributes.now)) → ⊥) }
{
    let Some(text) = value_of(attributes, b"", b"maxOccurs") else {
        return Ok(None);
    };
    if is_endless(text) {
        return Ok(None);
    }
    match count_of(text) {
        Some(number) => Ok(Some(number)),
        None => Err(BadNumber),
    }
}

/// An element, an alternative or a building block.
pub fn element_in(
    alloc: Global,
    attributes: &[TagAttribute<'_>],
    absent: u32,
) -> Result<ElementDef, Stop>
    ensures ok { IfOk result (λ e. HasOccurrences (map tag_entry attributes.now) × (e ≡ spec_element absent (map tag_entry attributes.now))) }
    ensures err { IfErr result (λ e. TellsOccurrences (map tag_entry attributes.now) e) }
{
    let Ok(min) = least_in(attributes, absent) else {
        return Err(Stop::Rule(4));
    };
    let Ok(max) = greatest_in(attributes) else {
        return Err(Stop::Rule(4));
    };
    Ok(ElementDef {
        name: text_in(alloc, attributes, b"name")?,
        tag: text_in(alloc, attributes, b"xmlTag")?,
        min,
        max,
        simple: reference_in(alloc, attributes, b"simpleType")?,
        complex: reference_in(alloc, attributes, b"complexType")?,
        plain: reference_in(alloc, attributes, b"type")?,
    })
}

/// An entry of the data dictionary, of which no element and no code has come.
pub fn object_in(
    alloc: Global,
    attributes: &[TagAttribute<'_>],
    kind: ObjectKind,
) -> Result<Object, Stop>
    ensures ok { IfOk result (λ o. HasFacetNumbers kind (map tag_entry attributes.now) × (o ≡ spec_object kind (map tag_entry attributes.now) [])) }
    ensures err { IfErr result (λ e. TellsFacets kind (map tag_entry attributes.now) e) }
{
    let pattern = reference_in(alloc, attributes, b"pattern")?;
    let Ok(facets) = facets_in(attributes, kind, pattern) else {
        return Err(Stop::Rule(4));
    };
    Ok(Object {
        name: text_in(alloc, attributes, b"name")?,
        kind,
        word: copied(alloc, word_of(attributes))?,
        facets,
        elements: Elements::new(alloc),
        codes: CodeDefs::new(alloc),
        trace: reference_in(alloc, attributes, b"trace")?,
        currency: reference_in(alloc, attributes, b"currencyIdentifierSet")?,
    })
}

/// A code.
pub fn code_in(alloc: Global, attributes: &[TagAttribute<'_>]) -> Result<CodeDef, AllocError>
    ensures { IfOk result (λ c. c ≡ spec_code (map tag_entry attributes.now)) }
{
    Ok(CodeDef {
        name: text_in(alloc, attributes, b"name")?,
        code: reference_in(alloc, attributes, b"codeName")?,
    })
}

/// A message, before its identifier and its building blocks.
pub fn message_in(alloc: Global, attributes: &[TagAttribute<'_>]) -> Result<MessageDef, AllocError>
    ensures { IfOk result (λ m. m ≡ spec_message (map tag_entry attributes.now) []) }
{
    Ok(MessageDef {
        id: Text::new(alloc),
        name: text_in(alloc, attributes, b"name")?,
        tag: text_in(alloc, attributes, b"xmlTag")?,
        blocks: Elements::new(alloc),
    })
}

/// The value of an attribute, empty where it is absent.
fn value_in<'a>(attributes: &[TagAttribute<'a>], name: &[u8]) -> &'a [u8]
    ensures { result.now ≡ spec_text name.now (map tag_entry attributes.now) }
{
    match value_of(attributes, b"", name) {
        Some(value) => value,
        None => b"",
    }
}

/// The identifier of a message.
pub fn identifier_in(alloc: Global, attributes: &[TagAttribute<'_>]) -> Result<Text, AllocError>
    ensures { IfOk result (λ t. t ≡ spec_identifier (map tag_entry attributes.now)) }
{
    let mut octets = Vec::from_slice(alloc, value_in(attributes, b"businessArea"))?;
    octets.push(b'.')?;
    octets.extend_from_slice(value_in(attributes, b"messageFunctionality"))?;
    octets.push(b'.')?;
    octets.extend_from_slice(value_in(attributes, b"flavour"))?;
    octets.push(b'.')?;
    octets.extend_from_slice(value_in(attributes, b"version"))?;
    Ok(Text::from_vec(octets))
}
