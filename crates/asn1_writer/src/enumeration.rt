//! The lines of codes, as named numbers.
ghost use Rattle.std.specs.Prelude.{◌∷◌};
ghost use Rattle.std.specs.List.{concat};
ghost use Rattle.outside.specs.Pushes.{Pushes};
ghost use Rattle.asn1_model.specs.ModuleText.{code_line, lines_from, separator};

use crate::lines::separator;
use asn1_model::Names;
use lexical_core::Text;
use outside::{Part, Render, Sink, SinkError, render_all};

/// The lines of codes.
#[derive(Clone, Copy)]
pub(crate) struct CodeLines<'a> {
    pub(crate) names: &'a Names,
}

impl Render for CodeLines<'_> {
    ghost use Rattle.asn1_model.specs.ModuleText.{code_line, lines_from};

    ghost rendered = { λ lines. lines_from code_line 0 lines.names.now };

    fn render<O: Sink>(&self, sink: &mut O) -> Result<(), SinkError>
        ensures { Pushes O.held O.faults O.room sink.old sink.new result (lines_from code_line 0 self.now.names.now) }
    {
        push_codes(self.names.as_slice(), sink)
    }
}

/// Pushes the lines of codes.
fn push_codes<O: Sink>(names: &[Text], sink: &mut O) -> Result<(), SinkError>
    ensures { Pushes O.held O.faults O.room sink.old sink.new result (lines_from code_line 0 names.now) }
{
    for (at, name) in names.iter().enumerate() {
        if let Err(error) = push_code(at, name, sink) {
            return Err(error);
        }
    }
    Ok(())
}

/// Pushes the line of the code of this number.
fn push_code<O: Sink>(at: usize, name: &Text, sink: &mut O) -> Result<(), SinkError>
    ensures { Pushes O.held O.faults O.room sink.old sink.new result (concat (separator at ∷ code_line at name.now)) }
{
    push_named_number(separator(at), name.bytes(), at as u64, sink)
}

/// Pushes the line of a named number: X.680 §20.1.
fn push_named_number<'a, O: Sink>(
    before: &'a [u8],
    name: &'a [u8],
    number: u64,
    sink: &mut O,
) -> Result<(), SinkError>
    ensures { Pushes O.held O.faults O.room sink.old sink.new result (concat (before.now ∷ code_line number name.now)) }
{
    let parts = [
        Part::Bytes(before),
        Part::Bytes(name),
        Part::Bytes(b"("),
        Part::Number(number),
        Part::Bytes(b")"),
    ];
    render_all(parts.as_slice(), sink)
}
