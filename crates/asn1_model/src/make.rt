//! The module of a compiled message.
ghost use Rattle.std.specs.Prelude.{◌≡◌, ◌++◌, [], IfOk, OnOk, map};
ghost use Rattle.message_model.specs.Sound.{AreSound};
ghost use Rattle.message_model.specs.Tables.{types_of};
ghost use Rattle.asn1_model.specs.ModuleOf.{by_name, names_given, types_with, with_shape, module_of as module_of_tables};
ghost use Rattle.asn1_model.specs.inner.Order.{numbered_type};
ghost use Rattle.asn1_model.specs.inner.TypeNames.{AreNames};

use crate::module::{AsnShape, AsnType, AsnTypes, Module};
use crate::names::type_name;
use crate::order::{NamedType, by_name};
use crate::shapes::shape_of;
use crate::type_names::TypeNames;
use lexical_core::{Items, Text};
use message_model::Model;
use std::alloc::{AllocError, Global};

/// The module of a message, under automatic tags: X.680 §13. It wants memory for the whole of it.
#[tactic(auto, unfolding(crate::specs::ModuleOf::module_of))]
pub fn module_of(alloc: Global, model: &Model) -> Result<Module, AllocError>
    ensures { IfOk result (λ m. m ≡ module_of_tables model.now) }
{
    let order = by_name(alloc, model)?;
    let count = model.type_count() as usize;
    let names = TypeNames::new(alloc, &order, count)?;
    let types = types_of(alloc, model, &order, &names)?;
    let name = type_name(alloc, model.id().bytes())?;
    Ok(Module {
        name: Text::from_vec(name),
        types,
    })
}

/// The types of the module, in order.
fn types_of(
    alloc: Global,
    model: &Model,
    order: &[NamedType<'_>],
    names: &TypeNames,
) -> Result<AsnTypes, AllocError>
    requires order { map numbered_type order.now ≡ by_name model.now }
    requires names { AreNames names.now model.now }
    requires sound { AreSound (types_of model.now) }
    ensures { IfOk result (λ types. types ≡ types_with model.now (by_name model.now) (names_given model.now)) }
{
    let mut types = Items::new(alloc);
    for (at, named) in order.iter().enumerate() {
        let Some(name) = names.get(at) else {
            return Ok(types);
        };
        let shape = shape_of(alloc, model, names, named.number)?;
        push_type(alloc, &mut types, name, shape)?;
    }
    Ok(types)
}

/// Appends a type, where it has a shape.
fn push_type(
    alloc: Global,
    types: &mut AsnTypes,
    name: &Text,
    shape: Option<AsnShape>,
) -> Result<(), AllocError>
    ensures { OnOk result (types.new ≡ types.old ++ with_shape name.now shape []) }
{
    match shape {
        None => Ok(()),
        Some(shape) => {
            let name = name.copy(alloc)?;
            types.push(AsnType { name, shape })
        }
    }
}
