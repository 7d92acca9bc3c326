//! Events that a tag tells, with the place of its first byte.
ghost use Rattle.std.specs.Prelude.{◌≡◌, false, true, [], ◌∷◌, ◌++◌, OnOk, OnErr, map, Some};
ghost use Rattle.markup.specs.Events.{start_tag_items, end_tag_items, expanded_in};
ghost use Rattle.markup.specs.EventItems.{Tells, TellsFront};
ghost use Rattle.markup.specs.TagAttributes.{tag_entry};
ghost use Rattle.markup.specs.Scopes.{placed_at};

use crate::attributes::{TagAttribute, event_attributes, text_of};
use crate::event::{Event, Events, What};
use crate::namespace::Namespace;
use crate::start_tag::StartTag;
use lexical_core::Text;
use std::alloc::{AllocError, Global};

/// Appends one event.
fn tell(out: &mut Events, place: u64, what: What) -> Result<(), AllocError>
    ensures ok { OnOk result (out.new ≡ out.old ++ (record { place = place; what = what }) ∷ []) }
    ensures err { OnErr result (out.new ≡ out.old) }
{
    out.push(Event { place, what })
}

/// Tells that an element ends, where its name has an expanded one.
pub(crate) fn tell_end(
    out: &mut Events,
    place: u64,
    namespace: Option<Namespace>,
    local: Text,
) -> Result<(), AllocError>
    ensures ok { OnOk result (Tells out.old out.new (placed_at place (end_tag_items (expanded_in namespace local)))) }
    ensures err { OnErr result (out.new ≡ out.old) }
{
    match namespace {
        Some(ns) => tell(out, place, What::End { ns, local }),
        None => Ok(()),
    }
}

/// Tells that an element starts.
fn tell_opening(
    out: &mut Events,
    place: u64,
    ns: Namespace,
    local: Text,
    attributes: &[TagAttribute<'_>],
    alloc: Global,
) -> Result<(), AllocError>
    ensures ok { OnOk result (Tells out.old out.new (placed_at place (start_tag_items (Some (record { namespace = ns; local = local })) (map tag_entry attributes.now) false))) }
    ensures err { OnErr result (out.new ≡ out.old) }
{
    let attrs = event_attributes(attributes, alloc)?;
    tell(out, place, What::Start { ns, local, attrs })
}

/// Tells that an element of this expanded name starts, and that it ends where it is empty. Where there is no memory it
/// appends a front of these events.
pub(crate) fn tell_start(
    out: &mut Events,
    place: u64,
    ns: Namespace,
    local: Text,
    attributes: &[TagAttribute<'_>],
    is_empty: bool,
    alloc: Global,
) -> Result<(), AllocError>
    ensures ok { OnOk result (Tells out.old out.new (placed_at place (start_tag_items (Some (record { namespace = ns; local = local })) (map tag_entry attributes.now) is_empty))) }
    ensures err { OnErr result (TellsFront out.old out.new (placed_at place (start_tag_items (Some (record { namespace = ns; local = local })) (map tag_entry attributes.now) is_empty))) }
{
    if !is_empty {
        return tell_opening(out, place, ns, local, attributes, alloc);
    }
    let same_ns = ns.share()?;
    let same_local = text_of(local.bytes(), alloc)?;
    tell_opening(out, place, ns, local, attributes, alloc)?;
    tell_end(out, place, Some(same_ns), same_local)
}

impl StartTag<'_> {
    /// Appends the events of the tag, at its place: the start of its element, and its end where it is empty. Where there
    /// is no memory it appends a front of them.
    pub fn tell(&self, place: u64, out: &mut Events, alloc: Global) -> Result<(), AllocError>
        ensures ok { OnOk result (Tells out.old out.new (placed_at place (start_tag_items (Some (record { namespace = self.now.ns; local = self.now.name.now })) (map tag_entry self.now.attributes.items) self.now.is_empty))) }
        ensures err { OnErr result (TellsFront out.old out.new (placed_at place (start_tag_items (Some (record { namespace = self.now.ns; local = self.now.name.now })) (map tag_entry self.now.attributes.items) self.now.is_empty))) }
    {
        let ns = self.ns.share()?;
        let local = text_of(self.name, alloc)?;
        tell_start(
            out,
            place,
            ns,
            local,
            self.attributes.as_slice(),
            self.is_empty,
            alloc,
        )
    }
}
