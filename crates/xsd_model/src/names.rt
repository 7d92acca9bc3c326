//! The names of a message's types.
ghost use Rattle.std.specs.Prelude.{◌≡◌, IfOk};
ghost use Rattle.xsd_model.specs.SchemaOf.{base_name, schema_name_of};

use lexical_core::Text;
use message_model::Model;
use std::alloc::{AllocError, Global};

/// What the name of the number of an amount ends with.
const BASE_END: &[u8] = b"_SimpleType";

/// The name of a type; empty where there is no type of this number.
pub(crate) fn name_of(model: &Model, number: u32) -> &[u8]
    ensures { result.now ≡ schema_name_of model.now number }
{
    match model.name(number) {
        Some(name) => name,
        None => &[],
    }
}

/// The name of the number of the amount of this name.
pub(crate) fn base_name(alloc: Global, name: &[u8]) -> Result<Text, AllocError>
    ensures { IfOk result (λ base. base ≡ base_name name.now) }
{
    let mut base = text_of(alloc, name)?;
    base.extend(BASE_END)?;
    Ok(base)
}

/// A text of these bytes.
pub(crate) fn text_of(alloc: Global, bytes: &[u8]) -> Result<Text, AllocError>
    ensures { IfOk result (λ text. text ≡ bytes.now) }
{
    Ok(Text::from_vec(Vec::from_slice(alloc, bytes)?))
}
