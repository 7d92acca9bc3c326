//! The declarations and attributes of a start tag, and the attributes with expanded names
//! (Namespaces in XML 1.0 §6.3).
ghost use Rattle.std.specs.Prelude.{◌≡◌, ◌<◌, ◌≤◌, ◌+◌, ◌^◌, ◌∷◌, List, [], IfOk, OnOk, Some, None, false, length, map, if◌then◌else◌};
ghost use Rattle.std.specs.List.{list_any, filter_map};
ghost use Rattle.std.specs.Option.{option_map, option_copied};
ghost use Rattle.std.specs.Str.{bytes_eq};
ghost use Rattle.std.specs.Ordering.{is_lt};
ghost use Rattle.lexical_core.specs.Names.{name_cmp};
ghost use Rattle.markup.specs.Events.{declared_prefix, namespace_of};
ghost use Rattle.markup.specs.EventItems.{entry_of};
ghost use Rattle.markup.specs.inner.Bindings.{Binds};
ghost use Rattle.markup.specs.Scopes.{declarations, all_declarations};
ghost use Rattle.markup.specs.TagAttributes.{tag_entry};
ghost use Rattle.markup.specs.inner.Origins.{namespace_from};
ghost use Rattle.markup.specs.inner.TagParts.{tag_given, bound_entry, AreDeclared, IsExpanded, are_ascending, declares_badly, plain_attributes, entry_under, attribute_under, is_named, sorted_entries, has_twins};

use crate::bindings::Bindings;
use crate::event::{Attr, Attrs};
use crate::names::{declared_prefix, is_bad_declaration, is_empty};
use crate::namespace::Namespace;
use crate::origin::Origin;
use crate::tag::{Given, Opening};
use lexical_core::{Items, Text};
use std::alloc::{AllocError, Global};
use std::cmp::Ordering;

/// An attribute of a start tag, with its expanded name (Namespaces in XML 1.0 §6.2).
#[derive(Drop)]
pub struct TagAttribute<'a> {
    /// That of the prefix; without one the attribute is in none.
    pub ns: Namespace,
    /// What gives the prefix its namespace.
    pub(crate) origin: Origin,
    /// The prefix as it stands in the tag, empty where there is none.
    pub(crate) prefix: &'a [u8],
    /// The local name.
    pub name: &'a [u8],
    pub value: &'a [u8],
}

/// An attribute, or a declaration, as it is spelled.
#[inline]
pub(crate) fn spelled<'a>(prefix: &'a [u8], name: &'a [u8], value: &'a [u8]) -> TagAttribute<'a>
    ensures { tag_given result ≡ record { name = record { prefix = prefix.now; local = name.now }; value = value.now } }
{
    TagAttribute {
        ns: Namespace::none(),
        origin: Origin::Nothing,
        prefix,
        name,
        value,
    }
}

/// The declarations of a start tag.
#[derive(Clone, Copy)]
pub(crate) struct Declared {
    /// How many there are.
    pub(crate) count: usize,
    /// Whether two are of one prefix.
    pub(crate) has_clash: bool,
    /// Whether one may not be.
    pub(crate) is_bad: bool,
}

impl Declared {
    /// Opens those among the attributes of a tag.
    pub(crate) fn of(
        given: &[TagAttribute<'_>],
        bindings: &mut Bindings,
    ) -> Result<Declared, AllocError>
        ensures count { IfOk result (λ d. d.count ≡ length (declarations (map tag_given given.now))) }
        ensures bad { IfOk result (λ d. d.is_bad ≡ list_any declares_badly (map tag_given given.now)) }
        ensures kept { (before : List Given) → Binds bindings.old before → IfOk result (λ d. AreDeclared before (map tag_given given.now) d bindings.new) }
    {
        let outer = bindings.count();
        let mut declared = Declared {
            count: 0,
            has_clash: false,
            is_bad: false,
        };
        let mut at = given.len();
        while at > 0 {
            at -= 1;
            declared.add(&given[at], outer, bindings)?;
        }
        Ok(declared)
    }

    /// One more attribute, which stands before the others. `outer`: how many declarations were open
    /// before the tag.
    #[inline]
    fn add(
        &mut self,
        first: &TagAttribute<'_>,
        outer: usize,
        bindings: &mut Bindings,
    ) -> Result<(), AllocError>
        requires { self.old.count + 1 < 2 ^ 64 }
        ensures more { self.new.count ≤ self.old.count + 1 }
        ensures count { (given : List Given) → self.old.count ≡ length (declarations given) → OnOk result (self.new.count ≡ length (declarations (tag_given first.now ∷ given))) }
        ensures bad { (given : List Given) → self.old.is_bad ≡ list_any declares_badly given → OnOk result (self.new.is_bad ≡ list_any declares_badly (tag_given first.now ∷ given)) }
        ensures kept { (before given : List Given) → AreDeclared before given self.old bindings.old → outer ≡ length before → OnOk result (AreDeclared before (tag_given first.now ∷ given) self.new bindings.new) }
    {
        let Some(prefix) = declared_prefix(first.prefix, first.name) else {
            return Ok(());
        };
        self.count += 1;
        self.has_clash |= bindings.is_declared_behind(outer, prefix);
        self.is_bad |= is_bad_declaration(prefix, first.value);
        bindings.declare(prefix, first.value)
    }
}

/// What gives an attribute with this prefix its namespace: a default namespace does not apply to it
/// (Namespaces §6.2).
#[inline]
fn attribute_origin(bindings: &Bindings, prefix: &[u8]) -> Option<Origin>
    ensures { (tags : List Opening) → Binds bindings.now (all_declarations tags) → option_map (namespace_from bindings.now) result ≡ (if bytes_eq prefix.now [] then Some [] else namespace_of tags prefix.now) }
{
    if is_empty(prefix) {
        Some(Origin::Nothing)
    } else {
        bindings.origin_of(prefix)
    }
}

/// Finds what gives the attribute's prefix its namespace, and answers whether the attribute declares nothing and
/// has one.
#[inline]
fn bind(attribute: &mut TagAttribute<'_>, bindings: &Bindings) -> bool
    ensures { (tags : List Opening) → Binds bindings.now (all_declarations tags) → attribute_under tags (tag_given attribute.old) ≡ (if result then Some (bound_entry bindings.now attribute.new) else None) }
{
    if declared_prefix(attribute.prefix, attribute.name).is_some() {
        return false;
    }
    let Some(origin) = attribute_origin(bindings, attribute.prefix) else {
        return false;
    };
    attribute.origin = origin;
    true
}

/// Leaves the attributes that declare nothing and have an expanded name.
fn bind_all(attributes: &mut Vec<TagAttribute<'_>>, bindings: &Bindings)
    ensures { (tags : List Opening) → Binds bindings.now (all_declarations tags) → map (bound_entry bindings.now) attributes.new.items ≡ filter_map (attribute_under tags) (map tag_given attributes.old.items) }
{
    attributes.retain_mut(
        |attribute: &mut TagAttribute<'_>| -> bool
            ensures { (tags : List Opening) → Binds bindings.entry.now (all_declarations tags) → attribute_under tags (tag_given attribute.old) ≡ (if result then Some (bound_entry bindings.entry.now attribute.new) else None) }
        { bind(attribute, bindings) },
    );
}

/// How two attributes stand by their names.
#[inline]
fn name_cmp(left: &TagAttribute<'_>, right: &TagAttribute<'_>, bindings: &Bindings) -> Ordering
    ensures { result ≡ name_cmp (bound_entry bindings.now left.now).name (bound_entry bindings.now right.now).name }
{
    match bindings.namespace_cmp(left.origin, right.origin) {
        Ordering::Equal => left.name.cmp(right.name),
        apart => apart,
    }
}

/// Whether the name of an attribute is below that of the next one.
fn is_below(left: &TagAttribute<'_>, right: &TagAttribute<'_>, bindings: &Bindings) -> bool
    ensures { result ≡ is_lt (name_cmp (bound_entry bindings.now left.now).name (bound_entry bindings.now right.now).name) }
{
    name_cmp(left, right, bindings).is_lt()
}

/// Whether the name of each attribute is below that of the next one.
fn are_ascending(attributes: &[TagAttribute<'_>], bindings: &Bindings) -> bool
    ensures { result ≡ are_ascending (map (bound_entry bindings.now) attributes.now) }
{
    for next in 1..attributes.len() {
        if !is_below(&attributes[next - 1], &attributes[next], bindings) {
            return false;
        }
    }
    true
}

/// Whether two attributes have one name.
fn is_named(left: &TagAttribute<'_>, right: &TagAttribute<'_>, bindings: &Bindings) -> bool
    ensures { result ≡ is_named (bound_entry bindings.now left.now).name (bound_entry bindings.now right.now) }
{
    name_cmp(left, right, bindings).is_eq()
}

/// Whether two neighbours have one name.
fn has_twins(attributes: &[TagAttribute<'_>], bindings: &Bindings) -> bool
    ensures { result ≡ has_twins (map (bound_entry bindings.now) attributes.now) }
{
    for next in 1..attributes.len() {
        if is_named(&attributes[next - 1], &attributes[next], bindings) {
            return true;
        }
    }
    false
}

/// Puts the attributes into the order of their names, and answers whether two have one.
fn sort(attributes: &mut Vec<TagAttribute<'_>>, bindings: &Bindings) -> bool
    ensures twins { result ≡ has_twins (sorted_entries (map (bound_entry bindings.now) attributes.old.items)) }
    ensures sorted { result ≡ false → map (bound_entry bindings.now) attributes.new.items ≡ sorted_entries (map (bound_entry bindings.now) attributes.old.items) }
{
    if are_ascending(attributes.as_slice(), bindings) {
        return false;
    }
    attributes.sort_unstable_by(|left, right| name_cmp(left, right, bindings));
    has_twins(attributes.as_slice(), bindings)
}

/// Gives the attributes the namespaces that were found.
fn name_all(attributes: &mut Vec<TagAttribute<'_>>, bindings: &Bindings) -> Result<(), AllocError>
    ensures { OnOk result (map tag_entry attributes.new.items ≡ map (bound_entry bindings.now) attributes.old.items) }
{
    for attribute in attributes.iter_mut() {
        attribute.ns = bindings.share(attribute.origin)?;
    }
    Ok(())
}

/// What is wrong with the attributes of a start tag that declare nothing.
#[derive(Clone, Copy)]
pub(crate) struct Expanded {
    /// Whether two have one name.
    pub(crate) has_clash: bool,
    /// Whether one has a prefix that is bound to nothing.
    pub(crate) is_unbound: bool,
}

impl Expanded {
    /// Leaves of the attributes, of which so many declare a namespace, those that have an expanded name, sorted by
    /// it.
    pub(crate) fn of(
        attributes: &mut Vec<TagAttribute<'_>>,
        declared: usize,
        bindings: &Bindings,
    ) -> Result<Expanded, AllocError>
        requires { declared ≡ length (declarations (map tag_given attributes.old.items)) }
        ensures { (tags : List Opening) → Binds bindings.now (all_declarations tags) → IfOk result (λ e. IsExpanded tags (plain_attributes (map tag_given attributes.old.items)) e attributes.new.items) }
    {
        let count = attributes.len();
        bind_all(attributes, bindings);
        let is_unbound = attributes.len() < count.saturating_sub(declared);
        let has_clash = sort(attributes, bindings);
        name_all(attributes, bindings)?;
        Ok(Expanded {
            has_clash,
            is_unbound,
        })
    }
}

/// A text of these bytes.
pub(crate) fn text_of(bytes: &[u8], alloc: Global) -> Result<Text, AllocError>
    ensures { IfOk result (λ t. t ≡ bytes.now) }
{
    Ok(Text::from_vec(Vec::from_slice(alloc, bytes)?))
}

/// The attributes of a tag as they are spelled.
pub(crate) fn spelled_attributes<'a>(
    given: &'a [Given],
    alloc: Global,
) -> Result<Vec<TagAttribute<'a>>, AllocError>
    ensures { IfOk result (λ attributes. map tag_given attributes.items ≡ given.now) }
{
    let mut attributes = Vec::with_capacity(alloc, given.len())?;
    for one in given {
        attributes.push(spelled(
            one.name.prefix.bytes(),
            one.name.local.bytes(),
            one.value.bytes(),
        ))?;
    }
    Ok(attributes)
}

/// An attribute as an event has it.
fn event_attribute(attribute: &TagAttribute<'_>, alloc: Global) -> Result<Attr, AllocError>
    ensures { IfOk result (λ attr. entry_of attr ≡ tag_entry attribute.now) }
{
    Ok(Attr {
        ns: attribute.ns.share()?,
        local: text_of(attribute.name, alloc)?,
        value: text_of(attribute.value, alloc)?,
    })
}

/// The attributes of a tag as an event has them.
pub(crate) fn event_attributes(
    attributes: &[TagAttribute<'_>],
    alloc: Global,
) -> Result<Attrs, AllocError>
    ensures { IfOk result (λ attrs. map entry_of attrs ≡ map tag_entry attributes.now) }
{
    let mut attrs = Vec::with_capacity(alloc, attributes.len())?;
    for attribute in attributes {
        attrs.push(event_attribute(attribute, alloc)?)?;
    }
    Ok(Items::from_vec(attrs))
}
