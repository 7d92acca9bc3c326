//! The schema of a compiled message.
ghost use Rattle.std.specs.Prelude.{◌≡◌, IfOk, OnOk};
ghost use Rattle.message_model.specs.Tables.{message_namespace};
ghost use Rattle.xsd_model.specs.SchemaOf.{schema_of as schema_of_tables, sorted_types};

use crate::schema::{Schema, SchemaType};
use crate::types::all_types;
use lexical_core::{Items, Text};
use message_model::Model;
use message_model::model::NAMESPACE_FRONT;
use std::alloc::{AllocError, Global};

/// The schema of a message: its types sorted by name. It wants memory for the whole of it.
pub fn schema_of(alloc: Global, model: &Model) -> Result<Schema, AllocError>
    ensures { IfOk result (λ schema. schema ≡ schema_of_tables model.now) }
{
    let mut types = all_types(alloc, model)?;
    sort(&mut types)?;
    Ok(Schema {
        namespace: namespace_of(alloc, model)?,
        types: Items::from_vec(types),
    })
}

/// The namespace of the message's elements.
fn namespace_of(alloc: Global, model: &Model) -> Result<Text, AllocError>
    ensures { IfOk result (λ namespace. namespace ≡ message_namespace model.now) }
{
    let mut namespace = Text::new(alloc);
    namespace.extend(NAMESPACE_FRONT)?;
    namespace.extend(model.id().bytes())?;
    Ok(namespace)
}

/// Puts the types into the order of their names.
fn sort(types: &mut Vec<SchemaType>) -> Result<(), AllocError>
    ensures { OnOk result (types.new.items ≡ sorted_types types.old.items) }
{
    types.sort_by(|left, right| left.name.bytes().cmp(right.name.bytes()))?;
    Ok(())
}
