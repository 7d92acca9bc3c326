//! The compiled types of a message, by number.
ghost use Rattle.std.specs.Prelude.{◌≡◌, ◌↔◌, ◌<◌, ◌≤◌, ℕ, IsSome, IfSome, List, length, slice_get, Some, true};
ghost use Rattle.std.specs.Option.{option_copied, option_map};
ghost use Rattle.std.specs.Str.{bytes_eq};
ghost use Rattle.reference_check.specs.Forms.{form_slots, text_type};
ghost use Rattle.reference_check.specs.Steps.{Came, EndsWith, next, end_after, end_of_slots, find_slot, has_room, after_order};
ghost use Rattle.reference_check.specs.Forms.{Slot as Slotted};
ghost use Rattle.message_model.specs.Tables.{TypeEntry, types_of, message_namespace};
ghost use Rattle.message_model.specs.Sound.{AreSound, HaveCodes, HaveSortedCodes, HasRoot, AreLinked, IsSoundForm};
ghost use Rattle.message_model.specs.inner.Quick.{quick_sequence_next, quick_choice_next, quick_sequence_end, quick_choice_end, quick_at, due, HasTagAt, AreTagged};
ghost use Rattle.message_model.specs.Views.{layout_form, slot_view, slots_view, next_view, end_view, IsFormOf};

use crate::slot_list::{SlotInfo, Slots};
use crate::tag_order::TagOrder;
use facets::Simple;
use lexical_core::{Text, are_same};
use repo_objects::MessageId;

/// What the namespaces of all messages begin with.
pub const NAMESPACE_FRONT: &[u8] = b"urn:iso:std:iso:20022:tech:xsd:";

/// The most elements of a component, a choice or a message.
pub const MOST_SLOTS: u32 = 4096;

/// So many slots from the one that is due on are tried one after the other.
const FEW_AHEAD: u32 = 6;

/// What a type is to an instance, as it is kept.
#[derive(Drop)]
pub(crate) enum Layout {
    Sequence(Slots),
    Choice(Slots),
    Simple(Simple),
    Money { code: u32, base: Simple },
    Envelope,
}

/// A type, as it is kept.
#[derive(Drop)]
pub(crate) struct TypeInfo {
    pub(crate) word: Text,
    pub(crate) name: Text,
    pub(crate) layout: Layout,
    pub(crate) order: TagOrder,
}

/// The compiled types of a message. Type 0 is `Document`, type 1 the message.
#[derive(Drop)]
pub struct Model {
    pub(crate) id: MessageId,
    pub(crate) types: Vec<TypeInfo>,
}

/// What a type is to an instance.
#[derive(Clone, Copy)]
pub enum Form<'a> {
    /// Its elements come in the order of its slots.
    Sequence,
    /// One of its slots comes.
    Choice,
    /// A text of this simple type.
    Simple(&'a Simple),
    /// A number of this simple type, with a currency that is a text of the type of that number.
    Money { code: u32, base: &'a Simple },
    /// Any one element, with all that is in it.
    Envelope,
}

/// An element of a component or a choice.
#[derive(Clone, Copy)]
pub struct Slot<'a> {
    pub tag: &'a [u8],
    /// How often it comes at least.
    pub min: u32,
    /// How often it comes at most; `None` where there is no such number.
    pub max: Option<u32>,
    /// The number of its type.
    pub target: u32,
}

/// What a tag is behind the slots that have come.
#[derive(Clone, Copy, Debug, PartialEq, Eq)]
pub enum Next {
    /// The slot of this number, which may come.
    Slot(u32),
    /// The tag of no slot.
    Unknown,
    /// A slot before one that has come.
    OutOfOrder,
    /// The slot that came last, as often as it may.
    TooMany,
    /// A slot behind the one of this number, which has to come before it.
    Missing(u32),
    /// Another alternative of a choice than the one that has come.
    Second,
}

/// What the end is behind the slots that have come.
#[derive(Clone, Copy, Debug, PartialEq, Eq)]
pub enum End {
    /// It may come.
    Fine,
    /// The slot of this number has to come before it, or come more often.
    Missing(u32),
    /// No alternative of a choice has come.
    NoAlternative,
}

impl std::marker::Model for Model {
    ghost use Rattle.std.specs.Prelude.{map, length, ◌≤◌};
    ghost use Rattle.message_model.specs.Tables.{Tables, types_of};
    ghost use Rattle.message_model.specs.Sound.{AreSound, HaveCodes, HaveSortedCodes, HasRoot, AreLinked};
    ghost use Rattle.message_model.specs.Views.{type_entry, tables_from};

    ghost Value = { Tables };

    ghost view = { λ m. tables_from m.id (map type_entry m.types.items) };

    ghost invariant = { λ m. AreSound (types_of (tables_from m.id (map type_entry m.types.items))) × HaveCodes (types_of (tables_from m.id (map type_entry m.types.items))) × HaveSortedCodes (types_of (tables_from m.id (map type_entry m.types.items))) × HasRoot (types_of (tables_from m.id (map type_entry m.types.items))) × AreLinked (tables_from m.id (map type_entry m.types.items)) × (length m.types.items ≤ 65538) };
}

impl Model {
    /// The identifier of the message.
    pub fn id(&self) -> &MessageId
        ensures { result.now ≡ self.now.id }
    {
        &self.id
    }

    /// The number of types. Each element of a type leads to one of them. It also tells proofs what holds of the types of
    /// every model, by the clauses behind `count`.
    pub fn type_count(&self) -> u32
        ensures count { result ≡ length self.now.types }
        ensures sound { AreSound (types_of self.now) }
        ensures codes { HaveCodes (types_of self.now) }
        ensures sorted { HaveSortedCodes (types_of self.now) }
        ensures root { HasRoot (types_of self.now) }
        ensures linked { AreLinked self.now }
    {
        self.types.len() as u32
    }

    /// The word for the kind of a type; `None` where there is no type of this number.
    pub fn word(&self, number: u32) -> Option<&[u8]>
        ensures { option_copied result ≡ option_map (λ (t : TypeEntry). t.word) (slice_get self.now.types number) }
    {
        let entry = self.types.get(number as usize)?;
        Some(entry.word.bytes())
    }

    /// The name of a type; `None` where there is no type of this number.
    pub fn name(&self, number: u32) -> Option<&[u8]>
        ensures { option_copied result ≡ option_map (λ (t : TypeEntry). t.name) (slice_get self.now.types number) }
    {
        let entry = self.types.get(number as usize)?;
        Some(entry.name.bytes())
    }

    /// What a type is to an instance; `None` where there is no type of this number.
    pub fn form(&self, number: u32) -> Option<Form<'_>>
        ensures form { IsFormOf result (types_of self.now number) }
        ensures there { IsSome result ↔ (number < length self.now.types) }
    {
        let entry = self.types.get(number as usize)?;
        Some(match &entry.layout {
            Layout::Sequence(_) => Form::Sequence,
            Layout::Choice(_) => Form::Choice,
            Layout::Simple(simple) => Form::Simple(simple),
            Layout::Money { code, base } => Form::Money { code: *code, base },
            Layout::Envelope => Form::Envelope,
        })
    }

    /// The facets of the text of an element of the type; `None` where it has elements, or there is no such type.
    pub fn text_type(&self, number: u32) -> Option<&Simple>
        ensures { option_copied result ≡ text_type (types_of self.now number) }
    {
        match self.form(number)? {
            Form::Simple(simple) => Some(simple),
            Form::Money { base, .. } => Some(base),
            _ => None,
        }
    }

    /// Whether this is the namespace of the message's elements.
    #[tactic(auto, using(crate::proofs::Names::parts_eq))]
    pub fn is_namespace(&self, namespace: &[u8]) -> bool
        ensures { result ≡ bytes_eq namespace.now (message_namespace self.now) }
    {
        if namespace.len() < NAMESPACE_FRONT.len() {
            return false;
        }
        let (front, rest) = namespace.split_at(NAMESPACE_FRONT.len());
        front == NAMESPACE_FRONT && rest == self.id.bytes()
    }

    /// An element of a component or a choice; `None` where the type has none of this number.
    #[inline(always)]
    pub fn slot(&self, number: u32, at: u32) -> Option<Slot<'_>>
        ensures { slot_view result ≡ slice_get (form_slots (types_of self.now number)) at }
    {
        let entry = self.types.get(number as usize)?;
        match &entry.layout {
            Layout::Sequence(slots) => slot_of(slots.as_slice(), at),
            Layout::Choice(slots) => slot_of(slots.as_slice(), at),
            _ => None,
        }
    }

    /// What the tag is in an element of the type, whose last slot came so many times.
    #[tactic(auto, using(crate::proofs::Due::form_found))]
    pub fn next(&self, number: u32, last: Option<u32>, count: u64, tag: &[u8]) -> Next
        ensures { (d : List ℕ) → Came (types_of self.now number) d → EndsWith d last count → next_view result ≡ next (types_of self.now number) d tag.now }
    {
        match self.types.get(number as usize) {
            None => Next::Unknown,
            Some(entry) => layout_next(&entry.layout, &entry.order, last, count, tag),
        }
    }

    /// What the end is in an element of the type, whose last slot came so many times.
    #[tactic(auto, using(crate::proofs::Due::form_found))]
    pub fn end(&self, number: u32, last: Option<u32>, count: u64) -> End
        ensures { (d : List ℕ) → Came (types_of self.now number) d → EndsWith d last count → end_view result ≡ end_after (types_of self.now number) d }
    {
        match self.types.get(number as usize) {
            None => End::NoAlternative,
            Some(entry) => layout_end(&entry.layout, last, count),
        }
    }
}

/// The first slot of the tag.
#[tactic(auto, using(crate::proofs::Views::find_rest, crate::proofs::Views::find_end))]
fn find_tag(slots: &[SlotInfo], tag: &[u8]) -> Option<u32>
    requires { length slots.now ≤ 4096 }
    ensures { result ≡ find_slot 0 (slots_view slots.now) tag.now }
{
    for (at, slot) in slots.iter().enumerate() {
        if slot.tag.bytes() == tag {
            return Some(at as u32);
        }
    }
    None
}

/// Whether the slot has the tag.
#[tactic(auto, using(crate::proofs::Views::slice_get_map))]
pub(crate) fn has_tag(slots: &[SlotInfo], at: u32, tag: &[u8]) -> bool
    ensures { result ≡ true → HasTagAt (slots_view slots.now) at tag.now }
{
    match slots.get(at as usize) {
        Some(slot) => are_same(slot.tag.bytes(), tag),
        None => false,
    }
}

/// The slot of the tag among the few behind this one.
fn find_ahead(slots: &[SlotInfo], at: u32, tag: &[u8]) -> Option<u32>
    ensures { IfSome result (λ at. HasTagAt (slots_view slots.now) at tag.now) }
{
    for ahead in 1..FEW_AHEAD {
        let place = at.saturating_add(ahead);
        if has_tag(slots, place, tag) {
            return Some(place);
        }
    }
    None
}

/// The slot of the tag. The one behind the last that came and the last are compared before all others, and then the few
/// that follow, since tags mostly come in order; of many others the order of their tags leads to it.
fn find_near(slots: &[SlotInfo], order: &TagOrder, last: Option<u32>, tag: &[u8]) -> Option<u32>
    requires short { length slots.now ≤ 4096 }
    requires apart { AreTagged (slots_view slots.now) }
    ensures { result ≡ find_slot 0 (slots_view slots.now) tag.now }
{
    let behind = match last {
        Some(last) => last.saturating_add(1),
        None => 0,
    };
    if has_tag(slots, behind, tag) {
        return Some(behind);
    }
    let near = last.unwrap_or(0);
    if has_tag(slots, near, tag) {
        return Some(near);
    }
    if let Some(at) = find_ahead(slots, behind, tag) {
        return Some(at);
    }
    match order.find(slots, tag) {
        Some(at) => Some(at),
        None => find_tag(slots, tag),
    }
}

/// One more may come.
fn is_open(count: u64, max: Option<u32>) -> bool
    ensures { result ≡ has_room count max }
{
    match max {
        None => true,
        Some(max) => count < max as u64,
    }
}

/// The slot, where none before it is due.
fn after(at: u32, due: Option<u32>) -> Next
    ensures { next_view result ≡ after_order at due }
{
    match due {
        None => Next::Slot(at),
        Some(due) => Next::Missing(due),
    }
}

/// What the tag is in a choice.
#[tactic(auto, using(crate::proofs::Views::slice_get_map))]
fn choice_next(
    slots: &[SlotInfo],
    order: &TagOrder,
    last: Option<u32>,
    count: u64,
    tag: &[u8],
) -> Next
    requires short { length slots.now ≤ 4096 }
    requires apart { AreTagged (slots_view slots.now) }
    ensures { next_view result ≡ quick_choice_next (slots_view slots.now) last count tag.now }
{
    let Some(at) = find_near(slots, order, last, tag) else {
        return Next::Unknown;
    };
    let Some(slot) = slots.get(at as usize) else {
        return Next::Unknown;
    };
    let Some(last) = last else {
        return Next::Slot(at);
    };
    if at != last {
        Next::Second
    } else if is_open(count, slot.max) {
        Next::Slot(at)
    } else {
        Next::TooMany
    }
}

/// The first slot from the last one on, and before another, that lacks some.
#[tactic(auto, using(crate::proofs::Views::slice_get_map, crate::proofs::Views::drop_view))]
fn due_from(slots: &Slots, last: u32, count: u64, to: u32) -> Option<u32>
    requires last { last < to }
    requires to { to ≤ length slots.now }
    requires short { length slots.now ≤ 4096 }
    ensures { result ≡ due (slots_view slots.now) last count to }
{
    let min = slots.as_slice()[last as usize].min;
    if count < min as u64 {
        Some(last)
    } else {
        slots.first_due(last + 1, to)
    }
}

/// What the slot is behind the last one, which came so many times.
#[tactic(auto, using(crate::proofs::Views::slice_get_map))]
fn sequence_at(slots: &Slots, last: Option<u32>, count: u64, at: u32) -> Next
    requires short { length slots.now ≤ 4096 }
    requires at { at < length slots.now }
    ensures { (s : Slotted ℕ) → slice_get (slots_view slots.now) at ≡ Some s → next_view result ≡ quick_at (slots_view slots.now) last count at s }
{
    let Some(last) = last else {
        return after(at, slots.first_due(0, at));
    };
    if at < last {
        Next::OutOfOrder
    } else if at > last {
        after(at, due_from(slots, last, count, at))
    } else if is_open(count, slots.as_slice()[at as usize].max) {
        Next::Slot(at)
    } else {
        Next::TooMany
    }
}

/// What the tag is in a sequence.
fn sequence_next(slots: &Slots, order: &TagOrder, last: Option<u32>, count: u64, tag: &[u8]) -> Next
    requires short { length slots.now ≤ 4096 }
    requires apart { AreTagged (slots_view slots.now) }
    ensures { next_view result ≡ quick_sequence_next (slots_view slots.now) last count tag.now }
{
    match find_near(slots.as_slice(), order, last, tag) {
        None => Next::Unknown,
        Some(at) => sequence_at(slots, last, count, at),
    }
}

/// What the tag is in an element of this layout.
fn layout_next(layout: &Layout, order: &TagOrder, last: Option<u32>, count: u64, tag: &[u8]) -> Next
    requires { IsSoundForm (layout_form layout.now) }
    ensures { (d : List ℕ) → Came (layout_form layout.now) d → EndsWith d last count → next_view result ≡ next (layout_form layout.now) d tag.now }
{
    match layout {
        Layout::Sequence(slots) => sequence_next(slots, order, last, count, tag),
        Layout::Choice(slots) => choice_next(slots.as_slice(), order, last, count, tag),
        _ => Next::Unknown,
    }
}

/// The end, where this slot is the first that is due.
fn lacks(due: Option<u32>) -> End
    ensures { end_view result ≡ end_of_slots due }
{
    match due {
        None => End::Fine,
        Some(due) => End::Missing(due),
    }
}

/// What the end is in a sequence.
fn sequence_end(slots: &Slots, last: Option<u32>, count: u64) -> End
    requires { length slots.now ≤ 4096 }
    ensures { end_view result ≡ quick_sequence_end (slots_view slots.now) last count }
{
    let to = slots.len() as u32;
    let Some(last) = last else {
        return lacks(slots.first_due(0, to));
    };
    if last < to {
        lacks(due_from(slots, last, count, to))
    } else {
        End::Fine
    }
}

/// What the end is in a choice.
#[tactic(auto, using(crate::proofs::Views::slice_get_map))]
fn choice_end(slots: &[SlotInfo], last: Option<u32>, count: u64) -> End
    ensures { end_view result ≡ quick_choice_end (slots_view slots.now) last count }
{
    let Some(last) = last else {
        return End::NoAlternative;
    };
    let Some(slot) = slots.get(last as usize) else {
        return End::NoAlternative;
    };
    if count < slot.min as u64 {
        End::Missing(last)
    } else {
        End::Fine
    }
}

/// What the end is in an element of this layout.
fn layout_end(layout: &Layout, last: Option<u32>, count: u64) -> End
    requires { IsSoundForm (layout_form layout.now) }
    ensures { (d : List ℕ) → Came (layout_form layout.now) d → EndsWith d last count → end_view result ≡ end_after (layout_form layout.now) d }
{
    match layout {
        Layout::Sequence(slots) => sequence_end(slots, last, count),
        Layout::Choice(slots) => choice_end(slots.as_slice(), last, count),
        _ => End::NoAlternative,
    }
}

/// The slot of this number; `None` where there is none.
#[tactic(auto, using(crate::proofs::Views::slice_get_map))]
fn slot_of(slots: &[SlotInfo], at: u32) -> Option<Slot<'_>>
    ensures { slot_view result ≡ slice_get (slots_view slots.now) at }
{
    let slot = slots.get(at as usize)?;
    Some(Slot {
        tag: slot.tag.bytes(),
        min: slot.min,
        max: slot.max,
        target: slot.target,
    })
}
