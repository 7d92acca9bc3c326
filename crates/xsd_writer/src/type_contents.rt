//! The lines between the first and the last of a type.
ghost use Rattle.std.specs.Prelude.{◌∷◌, [], flat_map};
ghost use Rattle.outside.specs.Pushes.{Pushes};
ghost use Rattle.xsd_model.specs.SchemaText.{amount_text, any_text, line, model_text, schema_part_text};
ghost use Rattle.xsd_writer.specs.inner.TypeContents.{contents_text};

use crate::segment::Segment;
use crate::step_lines::push_steps;
use outside::{Sink, SinkError, push_bytes, render_all};
use xsd_model::{Part, Parts, SchemaShape};

/// Pushes the contents of a type.
pub fn push_contents<O: Sink>(shape: &SchemaShape, sink: &mut O) -> Result<(), SinkError>
    ensures { Pushes O.held O.faults O.room sink.old sink.new result (contents_text shape.now) }
{
    match shape {
        SchemaShape::Sequence(parts) => push_model(b"sequence", parts, sink),
        SchemaShape::Choice(parts) => push_model(b"choice", parts, sink),
        SchemaShape::Simple(steps) => push_steps(steps, sink),
        SchemaShape::Money { base, code } => push_amount(base.bytes(), code.bytes(), sink),
        SchemaShape::Any => push_any(sink),
    }
}

/// Pushes a line: a word between two texts.
pub fn push_word<'a, O: Sink>(
    level: u8,
    before: &'a [u8],
    word: &'a [u8],
    behind: &'a [u8],
    sink: &mut O,
) -> Result<(), SinkError>
    ensures { Pushes O.held O.faults O.room sink.old sink.new result (line level (before.now ∷ word.now ∷ behind.now ∷ [])) }
{
    let segments = [
        Segment::Indent(level),
        Segment::Bytes(before),
        Segment::Bytes(word),
        Segment::Bytes(behind),
    ];
    render_all(segments.as_slice(), sink)
}

/// Pushes a content model, `sequence` or `choice`: part 1 §3.8.
fn push_model<O: Sink>(word: &[u8], parts: &Parts, sink: &mut O) -> Result<(), SinkError>
    ensures { Pushes O.held O.faults O.room sink.old sink.new result (model_text word.now parts.now) }
{
    if parts.is_empty() {
        return push_word(2, b"<xs:", word, b"/>\n", sink);
    }
    if let Err(error) = push_word(2, b"<xs:", word, b">\n", sink) {
        return Err(error);
    }
    if let Err(error) = push_parts(parts, sink) {
        return Err(error);
    }
    push_word(2, b"</xs:", word, b">\n", sink)
}

/// Pushes the elements of a content model.
fn push_parts<O: Sink>(parts: &Parts, sink: &mut O) -> Result<(), SinkError>
    ensures { Pushes O.held O.faults O.room sink.old sink.new result (flat_map schema_part_text parts.now) }
{
    for part in parts.as_slice() {
        if let Err(error) = push_part(part, sink) {
            return Err(error);
        }
    }
    Ok(())
}

/// Pushes an element of a content model: part 1 §3.3.
fn push_part<O: Sink>(part: &Part, sink: &mut O) -> Result<(), SinkError>
    ensures { Pushes O.held O.faults O.room sink.old sink.new result (schema_part_text part.now) }
{
    let segments = [
        Segment::Indent(3),
        Segment::Bytes(b"<xs:element name=\""),
        Segment::Value(part.tag.bytes()),
        Segment::Bytes(b"\" type=\""),
        Segment::Value(part.target.bytes()),
        Segment::Bytes(b"\""),
        Segment::Min(part.min),
        Segment::Max(part.max),
        Segment::Bytes(b"/>\n"),
    ];
    render_all(segments.as_slice(), sink)
}

/// Pushes the contents of an amount's type: part 1 §3.4, simple content with an attribute.
fn push_amount<'a, O: Sink>(base: &'a [u8], code: &'a [u8], sink: &mut O) -> Result<(), SinkError>
    ensures { Pushes O.held O.faults O.room sink.old sink.new result (amount_text base.now code.now) }
{
    let segments = [
        Segment::Indent(2),
        Segment::Bytes(b"<xs:simpleContent>\n"),
        Segment::Indent(3),
        Segment::Bytes(b"<xs:extension base=\""),
        Segment::Value(base),
        Segment::Bytes(b"\">\n"),
        Segment::Indent(4),
        Segment::Bytes(b"<xs:attribute name=\"Ccy\" type=\""),
        Segment::Value(code),
        Segment::Bytes(b"\" use=\"required\"/>\n"),
        Segment::Indent(3),
        Segment::Bytes(b"</xs:extension>\n"),
        Segment::Indent(2),
        Segment::Bytes(b"</xs:simpleContent>\n"),
    ];
    render_all(segments.as_slice(), sink)
}

/// Pushes the contents of a type of one element of any name: part 1 §3.10.
fn push_any<O: Sink>(sink: &mut O) -> Result<(), SinkError>
    ensures { Pushes O.held O.faults O.room sink.old sink.new result any_text }
{
    push_bytes(
        b"    <xs:sequence>\n      <xs:any namespace=\"##any\" processContents=\"skip\"/>\n    </xs:sequence>\n",
        sink,
    )
}
