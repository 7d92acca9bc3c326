//! The slots of a component, a choice or a message.
ghost use Rattle.std.specs.Prelude.{◌≡◌, ℕ, List, [], ◌∷◌, IfOk, map};
ghost use Rattle.reference_check.specs.Graph.{references};
ghost use Rattle.reference_check.specs.Forms.{slot_to};
ghost use Rattle.reference_check.specs.Graph.{slot_of};
ghost use Rattle.message_model.specs.Compiled.{place_of};
ghost use Rattle.message_model.specs.inner.Numbers.{AreNumbers, NamesPlace, NamePlaces, ids_at};
ghost use Rattle.message_model.specs.Views.{slot_info, slots_view};

use crate::numbers::number_of;
use crate::slot_list::{NOT_NOTED, SlotInfo, Slots};
use repo_objects::{ElementDef, Repository};
use std::alloc::{AllocError, Global};

/// The slots of these elements, in order.
pub(crate) fn slots_of(
    alloc: Global,
    repository: &Repository,
    numbers: &[u32],
    elements: &[ElementDef],
) -> Result<Slots, AllocError>
    ensures { (places : List ℕ) → AreNumbers places numbers.now → NamePlaces repository.now.objects places elements.now
        → IfOk result (λ v. map (slot_to (place_of (ids_at repository.now.objects places))) (slots_view v) ≡ map slot_of elements.now) }
{
    let mut slots = Vec::with_capacity(alloc, elements.len())?;
    for element in elements {
        let slot = make_slot(alloc, repository, numbers, element)?;
        slots.push(slot)?;
    }
    Ok(Slots::new(slots))
}

/// The slot of an element.
fn make_slot(
    alloc: Global,
    repository: &Repository,
    numbers: &[u32],
    element: &ElementDef,
) -> Result<SlotInfo, AllocError>
    ensures { (places : List ℕ) → AreNumbers places numbers.now → NamesPlace repository.now.objects places element.now
        → IfOk result (λ s. slot_to (place_of (ids_at repository.now.objects places)) (slot_info s) ≡ slot_of element.now) }
{
    let target = number_of(repository, numbers, reference(element));
    Ok(SlotInfo {
        tag: element.tag.copy(alloc)?,
        min: element.min,
        max: element.max,
        target,
        ahead: NOT_NOTED,
    })
}

/// The id that an element names; of one that names several the first, and none of one that names none.
fn reference(element: &ElementDef) -> &[u8]
    ensures { (id : List ℕ) → references element.now ≡ id ∷ [] → result.now ≡ id }
{
    if let Some(id) = &element.simple {
        return id.bytes();
    }
    if let Some(id) = &element.complex {
        return id.bytes();
    }
    match &element.plain {
        Some(id) => id.bytes(),
        None => &[],
    }
}
