//! The types of a message in the order of their names.
ghost use Rattle.std.specs.Prelude.{◌≡◌, IfOk, OnOk, map};
ghost use Rattle.asn1_model.specs.ModuleOf.{by_name};
ghost use Rattle.asn1_model.specs.inner.Order.{numbered_type, numbered_from, sorted_by_name};

use message_model::Model;
use std::alloc::{AllocError, Global};

/// A type of the message: its number and its name.
#[derive(Clone, Copy)]
pub(crate) struct NamedType<'a> {
    pub(crate) number: u32,
    pub(crate) name: &'a [u8],
}

/// The types sorted by the bytes of their names.
#[tactic(auto, using(crate::proofs::NumberedTypes::sorted_numbered))]
pub(crate) fn by_name(alloc: Global, model: &Model) -> Result<Vec<NamedType<'_>>, AllocError>
    ensures { IfOk result (λ types. map numbered_type types.items ≡ by_name model.now) }
{
    let mut types = by_number(alloc, model)?;
    sort(&mut types)?;
    Ok(types)
}

/// The types by number.
fn by_number(alloc: Global, model: &Model) -> Result<Vec<NamedType<'_>>, AllocError>
    ensures { IfOk result (λ types. map numbered_type types.items ≡ numbered_from 0 model.now.types) }
{
    let mut types = Vec::new(alloc);
    for number in 0..model.type_count() {
        let Some(name) = model.name(number) else {
            return Ok(types);
        };
        types.push(NamedType { number, name })?;
    }
    Ok(types)
}

/// Puts the types into the order of their names; those of one name keep theirs.
fn sort(types: &mut Vec<NamedType<'_>>) -> Result<(), AllocError>
    ensures { OnOk result (map numbered_type types.new.items ≡ sorted_by_name (map numbered_type types.old.items)) }
{
    types.sort_by(|left, right| left.name.cmp(right.name))?;
    Ok(())
}
