//! A schema, from its first line to its last one.
ghost use Rattle.std.specs.Prelude.{◌≡◌, ◌∷◌, true, [], codes, flat_map};
ghost use Rattle.outside.specs.Pushes.{Pushes, as_push};
ghost use Rattle.data_types.specs.Escaping.{escaped_bytes};
ghost use Rattle.xsd_model.specs.SchemaText.{head_text, line, schema_text, type_text};
ghost use Rattle.xsd_writer.specs.inner.TypeContents.{type_word};

use crate::segment::Segment;
use crate::type_contents::{push_contents, push_word};
use outside::{Sink, SinkError, WriteError, push_bytes, render_all};
use xsd_model::{Schema, SchemaShape, SchemaType, SchemaTypes};

/// Pushes the text of the schema, as it is made (XML Schema part 1). After an error the sink holds a front of it behind
/// what it held. It takes no memory of its own.
pub fn write_schema<O: Sink>(schema: &Schema, sink: &mut O) -> Result<(), WriteError>
    ensures { Pushes O.held O.faults O.room sink.old sink.new (as_push result) (schema_text schema.now) }
{
    match push_schema(schema, sink) {
        Ok(()) => Ok(()),
        Err(SinkError::Failed) => Err(WriteError::WriteFault),
        Err(SinkError::Memory) => Err(WriteError::Memory),
    }
}

/// Pushes the text of the schema.
fn push_schema<O: Sink>(schema: &Schema, sink: &mut O) -> Result<(), SinkError>
    ensures { Pushes O.held O.faults O.room sink.old sink.new result (schema_text schema.now) }
{
    if let Err(error) = push_head(schema.namespace.bytes(), sink) {
        return Err(error);
    }
    if let Err(error) = push_types(&schema.types, sink) {
        return Err(error);
    }
    push_bytes(b"</xs:schema>\n", sink)
}

/// Pushes what stands before the types.
fn push_head<O: Sink>(namespace: &[u8], sink: &mut O) -> Result<(), SinkError>
    ensures { Pushes O.held O.faults O.room sink.old sink.new result (head_text namespace.now) }
{
    let segments = [
        Segment::Bytes(b"<?xml version=\"1.0\" encoding=\"UTF-8\"?>\n<xs:schema xmlns=\""),
        Segment::Value(namespace),
        Segment::Bytes(
            b"\" xmlns:xs=\"http://www.w3.org/2001/XMLSchema\" elementFormDefault=\"qualified\" targetNamespace=\"",
        ),
        Segment::Value(namespace),
        Segment::Bytes(b"\">\n  <xs:element name=\"Document\" type=\"Document\"/>\n"),
    ];
    render_all(segments.as_slice(), sink)
}

/// Pushes the types.
fn push_types<O: Sink>(types: &SchemaTypes, sink: &mut O) -> Result<(), SinkError>
    ensures { Pushes O.held O.faults O.room sink.old sink.new result (flat_map type_text types.now) }
{
    for definition in types.as_slice() {
        if let Err(error) = push_type(definition, sink) {
            return Err(error);
        }
    }
    Ok(())
}

/// Pushes a type.
fn push_type<O: Sink>(definition: &SchemaType, sink: &mut O) -> Result<(), SinkError>
    ensures { Pushes O.held O.faults O.room sink.old sink.new result (type_text definition.now) }
{
    let word = type_word(&definition.shape);
    if let Err(error) = push_name(word, definition.name.bytes(), sink) {
        return Err(error);
    }
    if let Err(error) = push_contents(&definition.shape, sink) {
        return Err(error);
    }
    push_word(1, b"</xs:", word, b">\n", sink)
}

/// The name of the element that a type of this shape is.
fn type_word(shape: &SchemaShape) -> &'static [u8]
    ensures { result.now ≡ type_word shape.now }
{
    match shape {
        SchemaShape::Simple(_) => b"simpleType".as_slice(),
        _ => b"complexType".as_slice(),
    }
}

/// Pushes the first line of a type.
fn push_name<'a, O: Sink>(word: &'a [u8], name: &'a [u8], sink: &mut O) -> Result<(), SinkError>
    ensures { Pushes O.held O.faults O.room sink.old sink.new result
        (line 1 (codes "<xs:" ∷ word.now ∷ codes " name=\"" ∷ escaped_bytes true name.now ∷ codes "\">\n" ∷ [])) }
{
    let segments = [
        Segment::Indent(1),
        Segment::Bytes(b"<xs:"),
        Segment::Bytes(word),
        Segment::Bytes(b" name=\""),
        Segment::Value(name),
        Segment::Bytes(b"\">\n"),
    ];
    render_all(segments.as_slice(), sink)
}
