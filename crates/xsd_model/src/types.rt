//! The types of a schema that the types of a message are.
ghost use Rattle.std.specs.Prelude.{◌≡◌, ◌++◌, IfOk, OnOk};
ghost use Rattle.reference_check.specs.Forms.{Money};
ghost use Rattle.message_model.specs.Tables.{types_of};
ghost use Rattle.message_model.specs.Sound.{AreSound};
ghost use Rattle.xsd_model.specs.StepsOf.{steps_of};
ghost use Rattle.xsd_model.specs.SchemaOf.{all_types, base_name, schema_name_of, types_by};

use crate::names::{base_name, name_of, text_of};
use crate::parts::parts_of;
use crate::schema::{SchemaShape, SchemaType};
use crate::steps::steps_of;
use facets::Simple;
use message_model::{Form, Model};
use std::alloc::{AllocError, Global};

/// The types in the order of the message's types.
pub(crate) fn all_types(alloc: Global, model: &Model) -> Result<Vec<SchemaType>, AllocError>
    ensures { IfOk result (λ types. types.items ≡ all_types model.now) }
{
    let mut types = Vec::new(alloc);
    for number in 0..model.type_count() {
        add_types(alloc, model, number, &mut types)?;
    }
    Ok(types)
}

/// Adds the types that a type of the message is: its own, and before it that of the number of an amount.
fn add_types(
    alloc: Global,
    model: &Model,
    number: u32,
    types: &mut Vec<SchemaType>,
) -> Result<(), AllocError>
    requires { AreSound (types_of model.now) }
    ensures { OnOk result (types.new.items ≡ types.old.items ++ types_by (schema_name_of model.now) (schema_name_of model.now number) (types_of model.now number)) }
{
    let Some(form) = model.form(number) else {
        return Ok(());
    };
    let shape = match form {
        Form::Sequence => SchemaShape::Sequence(parts_of(alloc, model, number)?),
        Form::Choice => SchemaShape::Choice(parts_of(alloc, model, number)?),
        Form::Simple(simple) => SchemaShape::Simple(steps_of(alloc, simple)?),
        Form::Money { code, base } => return add_amount(alloc, model, number, code, base, types),
        Form::Envelope => SchemaShape::Any,
    };
    let name = text_of(alloc, name_of(model, number))?;
    types.push(SchemaType { name, shape })?;
    Ok(())
}

/// Adds the type of an amount behind that of its number.
fn add_amount(
    alloc: Global,
    model: &Model,
    number: u32,
    code: u32,
    base: &Simple,
    types: &mut Vec<SchemaType>,
) -> Result<(), AllocError>
    ensures { OnOk result (types.new.items ≡ types.old.items ++ types_by (schema_name_of model.now) (schema_name_of model.now number) (Money code base.now)) }
{
    let own = name_of(model, number);
    types.push(SchemaType {
        name: base_name(alloc, own)?,
        shape: SchemaShape::Simple(steps_of(alloc, base)?),
    })?;
    types.push(SchemaType {
        name: text_of(alloc, own)?,
        shape: SchemaShape::Money {
            base: base_name(alloc, own)?,
            code: text_of(alloc, name_of(model, code))?,
        },
    })?;
    Ok(())
}
