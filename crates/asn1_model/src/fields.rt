//! The components of a sequence and the alternatives of a choice.
ghost use Rattle.std.specs.Prelude.{◌≡◌, IfOk, map};
ghost use Rattle.reference_check.specs.Forms.{form_slots};
ghost use Rattle.message_model.specs.Sound.{AreSound};
ghost use Rattle.message_model.specs.Tables.{Tables, types_of};
ghost use Rattle.asn1_model.specs.ModuleOf.{asn_name_of, mode_of, slot_identifier, field_of, fields_with, fields_of};
ghost use Rattle.asn1_model.specs.inner.Fields.{slot_in};
ghost use Rattle.asn1_model.specs.inner.TypeNames.{AreNames};

use crate::given::given_names;
use crate::module::{Field, Fields, Mode, Names};
use crate::names::identifier;
use crate::type_names::TypeNames;
use der_model::comes_once;
use lexical_core::{Items, Text};
use message_model::{MOST_SLOTS, Model, Slot};
use std::alloc::{AllocError, Global};

/// The fields that the slots of a type are, in order.
pub(crate) fn fields_of(
    alloc: Global,
    model: &Model,
    names: &TypeNames,
    number: u32,
) -> Result<Fields, AllocError>
    requires names { AreNames names.now model.now }
    requires sound { AreSound (types_of model.now) }
    ensures { IfOk result (λ fields. fields ≡ fields_of (asn_name_of model.now) (form_slots (types_of model.now number))) }
{
    let slots = slots_of(alloc, model, number)?;
    let identifiers = identifiers(alloc, &slots)?;
    let given = given_names(alloc, &identifiers)?;
    fields_with(alloc, names, &slots, &given)
}

/// The slots of a type.
fn slots_of(alloc: Global, model: &Model, number: u32) -> Result<Vec<Slot<'_>>, AllocError>
    requires { AreSound (types_of model.now) }
    ensures { IfOk result (λ slots. map slot_in slots.items ≡ form_slots (types_of model.now number)) }
{
    let mut slots = Vec::new(alloc);
    for at in 0..MOST_SLOTS {
        let Some(slot) = model.slot(number, at) else {
            return Ok(slots);
        };
        slots.push(slot)?;
    }
    Ok(slots)
}

/// The identifiers of the slots, before clashes.
fn identifiers(alloc: Global, slots: &[Slot<'_>]) -> Result<Vec<Text>, AllocError>
    ensures { IfOk result (λ names. names.items ≡ map slot_identifier (map slot_in slots.now)) }
{
    let mut names = Vec::new(alloc);
    for slot in slots {
        names.push(slot_identifier(alloc, slot)?)?;
    }
    Ok(names)
}

/// The identifier of a slot, before clashes.
fn slot_identifier(alloc: Global, slot: &Slot<'_>) -> Result<Text, AllocError>
    ensures { IfOk result (λ name. name ≡ slot_identifier (slot_in slot.now)) }
{
    let mut name = identifier(alloc, slot.tag)?;
    if !comes_once(slot.max) {
        name.extend_from_slice(b"-list")?;
    }
    Ok(Text::from_vec(name))
}

/// How often a slot comes.
fn mode_of(slot: &Slot<'_>) -> Mode
    ensures { result ≡ mode_of (slot_in slot.now) }
{
    if !comes_once(slot.max) {
        Mode::List {
            min: slot.min,
            max: slot.max,
        }
    } else if slot.min == 0 {
        Mode::Optional
    } else {
        Mode::Required
    }
}

/// The fields of these slots, with the names that they are given.
fn fields_with(
    alloc: Global,
    names: &TypeNames,
    slots: &[Slot<'_>],
    given: &Names,
) -> Result<Fields, AllocError>
    ensures { (T : Tables) → AreNames names.now T → IfOk result (λ fields. fields ≡ fields_with (asn_name_of T) (map slot_in slots.now) given.now) }
{
    let mut fields = Items::new(alloc);
    for (at, slot) in slots.iter().enumerate() {
        let Some(name) = given.get(at) else {
            return Ok(fields);
        };
        fields.push(field_of(alloc, names, slot, name)?)?;
    }
    Ok(fields)
}

/// The field that a slot is, with the name that it is given.
fn field_of(
    alloc: Global,
    names: &TypeNames,
    slot: &Slot<'_>,
    given: &Text,
) -> Result<Field, AllocError>
    ensures { (T : Tables) → AreNames names.now T → IfOk result (λ field. field ≡ field_of (asn_name_of T) (slot_in slot.now) given.now) }
{
    Ok(Field {
        name: given.copy(alloc)?,
        target: names.name(alloc, slot.target)?,
        mode: mode_of(slot),
    })
}
