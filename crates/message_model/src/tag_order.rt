//! The slots of a type by their tags, for a search among many.
ghost use Rattle.std.specs.Prelude.{◌≤◌, IfSome};
ghost use Rattle.message_model.specs.inner.Quick.{HasTagAt};
ghost use Rattle.message_model.specs.Views.{slots_view};

use crate::model::{MOST_SLOTS, has_tag};
use crate::slot_list::SlotInfo;
use std::alloc::{AllocError, Global};

/// How many slots are as well compared one by one.
const FEW: usize = 8;

/// The numbers of the slots of a type in the order of their tags; none of a type with few slots. What it leads to is
/// compared with the tag, so no proof rests on the order.
#[derive(Drop)]
pub(crate) struct TagOrder {
    numbers: Vec<u16>,
}

impl TagOrder {
    /// The order of the tags of these slots.
    pub(crate) fn new(alloc: Global, slots: &[SlotInfo]) -> Result<TagOrder, AllocError> {
        let mut numbers = Vec::new(alloc);
        if slots.len() > FEW {
            put_numbers(&mut numbers, slots.len().min(MOST_SLOTS as usize))?;
            numbers.sort_unstable_by(|left, right| tag_at(slots, *left).cmp(tag_at(slots, *right)));
        }
        Ok(TagOrder { numbers })
    }

    /// The slot of the tag; none where the order does not lead to it.
    pub(crate) fn find(&self, slots: &[SlotInfo], tag: &[u8]) -> Option<u32>
        ensures { IfSome result (λ at. HasTagAt (slots_view slots.now) at tag.now) }
    {
        match self
            .numbers
            .binary_search_by(|number| tag_at(slots, *number).cmp(tag))
        {
            Ok(place) => named(slots, self.numbers.get(place), tag),
            Err(_) => None,
        }
    }
}

/// The number, if its slot has the tag.
fn named(slots: &[SlotInfo], number: Option<&u16>, tag: &[u8]) -> Option<u32>
    ensures { IfSome result (λ at. HasTagAt (slots_view slots.now) at tag.now) }
{
    let at = u32::from(*number?);
    if has_tag(slots, at, tag) {
        Some(at)
    } else {
        None
    }
}

/// So many numbers from 0 on.
fn put_numbers(numbers: &mut Vec<u16>, count: usize) -> Result<(), AllocError>
    requires { count ≤ 4096 }
{
    numbers.reserve(count)?;
    for number in 0..count {
        numbers.push(number as u16)?;
    }
    Ok(())
}

/// The tag of the slot of that number; the empty one where there is none.
fn tag_at(slots: &[SlotInfo], number: u16) -> &[u8] {
    match slots.get(number as usize) {
        Some(slot) => slot.tag.bytes(),
        None => &[],
    }
}
