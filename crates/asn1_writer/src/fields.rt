//! The lines of fields: components of a sequence, or alternatives of a choice.
ghost use Rattle.std.specs.Prelude.{◌≡◌, ◌∷◌, [], Some, codes};
ghost use Rattle.std.specs.List.{concat};
ghost use Rattle.outside.specs.Pushes.{Pushes};
ghost use Rattle.asn1_model.specs.ModuleText.{field_line, lines_from, mode_texts, separator, size_text};

use crate::lines::separator;
use crate::segment::Segment;
use asn1_model::{Field, Fields, Mode};
use outside::{Part, Render, Sink, SinkError, render_all};

/// The lines of fields.
#[derive(Clone, Copy)]
pub(crate) struct FieldLines<'a> {
    pub(crate) fields: &'a Fields,
}

impl Render for FieldLines<'_> {
    ghost use Rattle.asn1_model.specs.ModuleText.{field_line, lines_from};

    ghost rendered = { λ lines. lines_from field_line 0 lines.fields.now };

    fn render<O: Sink>(&self, sink: &mut O) -> Result<(), SinkError>
        ensures { Pushes O.held O.faults O.room sink.old sink.new result (lines_from field_line 0 self.now.fields.now) }
    {
        push_fields(self.fields.as_slice(), sink)
    }
}

/// Pushes the lines of fields.
fn push_fields<O: Sink>(fields: &[Field], sink: &mut O) -> Result<(), SinkError>
    ensures { Pushes O.held O.faults O.room sink.old sink.new result (lines_from field_line 0 fields.now) }
{
    for (at, field) in fields.iter().enumerate() {
        if let Err(error) = push_field(at, field, sink) {
            return Err(error);
        }
    }
    Ok(())
}

/// Pushes the line of the field of this number.
fn push_field<O: Sink>(at: usize, field: &Field, sink: &mut O) -> Result<(), SinkError>
    ensures { Pushes O.held O.faults O.room sink.old sink.new result (concat (separator at ∷ field_line at field.now)) }
{
    push_component(
        separator(at),
        field.name.bytes(),
        &field.mode,
        field.target.bytes(),
        sink,
    )
}

/// Pushes the line of a component: X.680 §25.
fn push_component<'a, O: Sink>(
    before: &'a [u8],
    name: &'a [u8],
    mode: &Mode,
    target: &'a [u8],
    sink: &mut O,
) -> Result<(), SinkError>
    ensures { Pushes O.held O.faults O.room sink.old sink.new result
        (concat (before.now ∷ name.now ∷ codes " " ∷ mode_texts mode.now target.now)) }
{
    match mode {
        Mode::Required => push_single(before, name, target, b"", sink),
        Mode::Optional => push_single(before, name, target, b" OPTIONAL", sink),
        Mode::List { min, max } => push_list(before, name, *min, *max, target, sink),
    }
}

/// Pushes the line of a component that comes at most once.
fn push_single<'a, O: Sink>(
    before: &'a [u8],
    name: &'a [u8],
    target: &'a [u8],
    behind: &'a [u8],
    sink: &mut O,
) -> Result<(), SinkError>
    ensures { Pushes O.held O.faults O.room sink.old sink.new result
        (concat (before.now ∷ name.now ∷ codes " " ∷ target.now ∷ behind.now ∷ [])) }
{
    let parts = [
        Part::Bytes(before),
        Part::Bytes(name),
        Part::Bytes(b" "),
        Part::Bytes(target),
        Part::Bytes(behind),
    ];
    render_all(parts.as_slice(), sink)
}

/// Pushes the line of a list: X.680 §26.
fn push_list<'a, O: Sink>(
    before: &'a [u8],
    name: &'a [u8],
    min: u32,
    max: Option<u32>,
    target: &'a [u8],
    sink: &mut O,
) -> Result<(), SinkError>
    ensures { Pushes O.held O.faults O.room sink.old sink.new result
        (concat (before.now ∷ name.now ∷ codes " SEQUENCE" ∷ size_text (Some min) max ∷ codes " OF " ∷ target.now ∷ [])) }
{
    let segments = [
        Segment::Bytes(before),
        Segment::Bytes(name),
        Segment::Bytes(b" SEQUENCE"),
        Segment::Size {
            min: Some(u64::from(min)),
            max: greatest(max),
        },
        Segment::Bytes(b" OF "),
        Segment::Bytes(target),
    ];
    render_all(segments.as_slice(), sink)
}

/// The greatest number of items as a size, where there is one.
fn greatest(max: Option<u32>) -> Option<u64>
    ensures { result ≡ max }
{
    match max {
        Some(max) => Some(u64::from(max)),
        None => None,
    }
}
