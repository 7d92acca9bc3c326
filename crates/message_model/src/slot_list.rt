//! The slots of a type, each with which slots stand next.
ghost use Rattle.std.specs.Prelude.{◌≡◌, ℕ, ◌+◌, ◌≤◌, ◌<◌, List, [], Some, cond, length, drop, slice_get, IfSome, IfNone};
ghost use Rattle.reference_check.specs.Forms.{Slot};
ghost use Rattle.reference_check.specs.Steps.{first_lacking};
ghost use Rattle.message_model.specs.Options.{is_option, IsFirmAt, AreOptions};
ghost use Rattle.message_model.specs.SlotViews.{slot_info, slots_view};
ghost use Rattle.message_model.specs.inner.Ahead.{IsAhead, AreNotedFrom};

use lexical_core::Text;
use std::marker::Model;

/// Which slots stand next from one on. Where there is none it is the number of slots.
#[derive(Clone, Copy)]
pub(crate) struct Ahead {
    /// The first that has to come.
    pub(crate) due: usize,
    /// The first that is no option.
    pub(crate) firm: usize,
}

/// An element of a component or a choice, as it is kept.
#[derive(Drop)]
pub(crate) struct SlotInfo {
    pub(crate) tag: Text,
    pub(crate) min: u32,
    pub(crate) max: Option<u32>,
    pub(crate) target: u32,
    pub(crate) ahead: Ahead,
}

/// What is told of a slot before the slots behind it are known.
pub(crate) const NOT_NOTED: Ahead = Ahead { due: 0, firm: 0 };

/// The slots of a type. What stands next is noted once, so that it takes one look, however many slots there are.
#[derive(Drop)]
pub(crate) struct Slots {
    list: Vec<SlotInfo>,
}

impl Model for Slots {
    ghost use Rattle.std.specs.Prelude.{List};
    ghost use Rattle.message_model.specs.declared.slot_list.SlotInfo.{SlotInfo};
    ghost use Rattle.message_model.specs.inner.Ahead.{AreNotedFrom};

    ghost Value = { List SlotInfo };

    ghost view = { λ s. s.list.items };

    ghost invariant = { λ s. AreNotedFrom 0 s.list.items };
}

impl Slots {
    /// These slots, of which each is told what stands next.
    pub(crate) fn new(mut list: Vec<SlotInfo>) -> Slots
        ensures { slots_view result ≡ slots_view list.items }
    {
        note_all(list.as_mut_slice());
        Slots { list }
    }

    /// The number of slots.
    pub(crate) fn len(&self) -> usize
        ensures { result ≡ length self.now }
    {
        self.list.len()
    }

    /// The slots, in order.
    pub(crate) fn as_slice(&self) -> &[SlotInfo]
        ensures { result.now ≡ self.now }
    {
        self.list.as_slice()
    }

    /// The first slot from one on, and before another, that has to come.
    pub(crate) fn first_due(&self, from: u32, to: u32) -> Option<u32>
        requires from { from ≤ to }
        requires to { to ≤ length self.now }
        ensures { result ≡ first_lacking from to (slots_view (drop from self.now)) [] }
    {
        let Some(slot) = self.list.get(from as usize) else {
            return None;
        };
        let due = slot.ahead.due;
        if due < to as usize {
            Some(due as u32)
        } else {
            None
        }
    }

    /// The first slot from one on that is no option.
    pub(crate) fn first_firm(&self, from: u32) -> Option<u32>
        requires { length self.now ≤ 4096 }
        ensures some { IfSome result (λ at. IsFirmAt (slots_view self.now) from at) }
        ensures none { IfNone result (AreOptions (slots_view self.now) from (length (slots_view self.now))) }
    {
        let Some(slot) = self.list.get(from as usize) else {
            return None;
        };
        let firm = slot.ahead.firm;
        if firm < self.list.len() {
            Some(firm as u32)
        } else {
            None
        }
    }
}

/// Tells each slot what stands next from it on.
fn note_all(slots: &mut [SlotInfo])
    ensures view { slots_view slots.new ≡ slots_view slots.old }
    ensures noted { AreNotedFrom 0 slots.new }
{
    let mut at = slots.len();
    let mut ahead = Ahead { due: at, firm: at };
    while at > 0 {
        at -= 1;
        ahead = ahead_from(&slots[at], at, ahead);
        slots[at].ahead = ahead;
    }
}

/// What is ahead from a slot on, by what is ahead behind it.
fn ahead_from(slot: &SlotInfo, at: usize, behind: Ahead) -> Ahead
    ensures { (fs : List (Slot ℕ)) → slice_get fs at ≡ Some (slot_info slot.now) → IsAhead fs (at + 1) behind → IsAhead fs at result }
{
    Ahead {
        due: passed(slot.min == 0, at, behind.due),
        firm: passed(is_optional(slot), at, behind.firm),
    }
}

/// What is behind, where this slot is passed by; else this slot.
fn passed(passes: bool, at: usize, behind: usize) -> usize
    ensures { result ≡ cond passes behind at }
{
    if passes { behind } else { at }
}

/// Whether the slot is an option.
fn is_optional(slot: &SlotInfo) -> bool
    ensures { result ≡ is_option (slot_info slot.now) }
{
    if slot.min != 0 {
        return false;
    }
    match slot.max {
        Some(max) => max == 1,
        None => false,
    }
}
