//! The text of a module.
ghost use Rattle.std.specs.Prelude.{flat_map};
ghost use Rattle.outside.specs.Pushes.{Pushes, as_push};
ghost use Rattle.asn1_model.specs.ModuleText.{module_text, asn_type_text};

use crate::shape::ShapeText;
use crate::within::push_named;
use asn1_model::{AsnType, AsnTypes, Module};
use outside::{Render, Sink, SinkError, WriteError, write_to};

/// Pushes the text of the module, as it is made (X.680 §13). After an error the sink holds a front of it behind what it
/// held. It takes no memory of its own.
pub fn write_module<O: Sink>(module: &Module, sink: &mut O) -> Result<(), WriteError>
    ensures { Pushes O.held O.faults O.room sink.old sink.new (as_push result) (module_text «module».now) }
{
    write_to(&ModuleText { written: module }, sink)
}

/// The text of a module.
#[derive(Clone, Copy)]
struct ModuleText<'a> {
    written: &'a Module,
}

impl Render for ModuleText<'_> {
    ghost use Rattle.asn1_model.specs.ModuleText.{module_text};

    ghost rendered = { λ text. module_text text.written.now };

    fn render<O: Sink>(&self, sink: &mut O) -> Result<(), SinkError>
        ensures { Pushes O.held O.faults O.room sink.old sink.new result (module_text self.now.written.now) }
    {
        push_module(self.written, sink)
    }
}

/// Pushes the text of a module.
fn push_module<O: Sink>(written: &Module, sink: &mut O) -> Result<(), SinkError>
    ensures { Pushes O.held O.faults O.room sink.old sink.new result (module_text written.now) }
{
    let types = TypeTexts {
        types: &written.types,
    };
    let before = b" DEFINITIONS AUTOMATIC TAGS ::= BEGIN\n\n";
    push_named(written.name.bytes(), before, &types, b"END\n", sink)
}

/// The texts of types.
#[derive(Clone, Copy)]
struct TypeTexts<'a> {
    types: &'a AsnTypes,
}

impl Render for TypeTexts<'_> {
    ghost use Rattle.std.specs.Prelude.{flat_map};
    ghost use Rattle.asn1_model.specs.ModuleText.{asn_type_text};

    ghost rendered = { λ texts. flat_map asn_type_text texts.types.now };

    fn render<O: Sink>(&self, sink: &mut O) -> Result<(), SinkError>
        ensures { Pushes O.held O.faults O.room sink.old sink.new result (flat_map asn_type_text self.now.types.now) }
    {
        push_types(self.types.as_slice(), sink)
    }
}

/// Pushes the texts of types, one after the other.
fn push_types<O: Sink>(types: &[AsnType], sink: &mut O) -> Result<(), SinkError>
    ensures { Pushes O.held O.faults O.room sink.old sink.new result (flat_map asn_type_text types.now) }
{
    for one in types {
        if let Err(error) = push_type(one, sink) {
            return Err(error);
        }
    }
    Ok(())
}

/// Pushes the text of a type: X.680 §16.1.
fn push_type<O: Sink>(one: &AsnType, sink: &mut O) -> Result<(), SinkError>
    ensures { Pushes O.held O.faults O.room sink.old sink.new result (asn_type_text one.now) }
{
    let shape = ShapeText { shape: &one.shape };
    push_named(one.name.bytes(), b" ::= ", &shape, b"\n\n", sink)
}
