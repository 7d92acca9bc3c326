//! The parts of a component or a choice.
ghost use Rattle.std.specs.Prelude.{◌≡◌, IfOk, map};
ghost use Rattle.reference_check.specs.Forms.{form_slots};
ghost use Rattle.message_model.specs.Tables.{types_of};
ghost use Rattle.message_model.specs.Sound.{AreSound};
ghost use Rattle.xsd_model.specs.SchemaOf.{schema_name_of, part_of};

use crate::names::{name_of, text_of};
use crate::schema::{Part, Parts};
use lexical_core::Items;
use message_model::{MOST_SLOTS, Model, Slot};
use std::alloc::{AllocError, Global};

/// The parts that the slots of a type are, in order.
pub(crate) fn parts_of(alloc: Global, model: &Model, number: u32) -> Result<Parts, AllocError>
    requires { AreSound (types_of model.now) }
    ensures { IfOk result (λ parts. parts ≡ map (part_of (schema_name_of model.now)) (form_slots (types_of model.now number))) }
{
    let mut parts = Items::new(alloc);
    for at in 0..MOST_SLOTS {
        let Some(slot) = model.slot(number, at) else {
            return Ok(parts);
        };
        parts.push(part_of(alloc, model, &slot)?)?;
    }
    Ok(parts)
}

/// The part that a slot is.
fn part_of(alloc: Global, model: &Model, slot: &Slot<'_>) -> Result<Part, AllocError>
    ensures { IfOk result (λ part. part ≡ part_of (schema_name_of model.now) (record { tag = slot.now.tag.now; min = slot.now.min; max = slot.now.max; target = slot.now.target })) }
{
    Ok(Part {
        tag: text_of(alloc, slot.tag)?,
        target: text_of(alloc, name_of(model, slot.target))?,
        min: slot.min,
        max: slot.max,
    })
}
