//! The canonical XML of an instance.
ghost use Rattle.std.specs.Prelude.{◌≡◌, ◌++◌, ℕ, List};
ghost use Rattle.outside.specs.Pushes.{Pushes, as_push};
ghost use Rattle.data_types.specs.Value.{Value};
ghost use Rattle.fragments.specs.Fragment.{fragment};
ghost use Rattle.message_model.specs.Admits.{AdmitsAs};
ghost use Rattle.message_model.specs.Tables.{types_of, message_namespace, message_of, pieces_of};
ghost use Rattle.xml_writer.specs.CanonXml.{IsCanonXml};
ghost use Rattle.xml_writer.specs.inner.PieceTexts.{is_amount, innermost_begun, AreWritten, document_head, document_text, root_text};

use crate::innermost::is_amount;
use crate::pieces::push_pieces;
use crate::tags::tag_end;
use inst_pool::Instance;
use message_model::Model;
use message_model::model::NAMESPACE_FRONT;
use outside::{Part, Sink, SinkError, WriteError, push_bytes, render_all};

/// Pushes the canonical XML of the instance, as it is made (XML 1.0 §2.1). After an error the sink holds a front of it
/// behind what it held. It takes no memory of its own.
pub fn write_xml<O: Sink>(
    model: &Model,
    instance: &Instance,
    sink: &mut O,
) -> Result<(), WriteError>
    requires held { (v : Value) × AdmitsAs (types_of model.now) (types_of model.now 0) v × (instance.now.region.pieces ≡ pieces_of fragment model.now v) }
    ensures { (v : Value) → AdmitsAs (types_of model.now) (types_of model.now 0) v → instance.now.region.pieces ≡ pieces_of fragment model.now v
        → (bytes : List ℕ) × IsCanonXml (message_of model.now) v bytes × Pushes O.held O.faults O.room sink.old sink.new (as_push result) bytes }
{
    match push_document(model, instance, sink) {
        Ok(()) => Ok(()),
        Err(SinkError::Failed) => Err(WriteError::WriteFault),
        Err(SinkError::Memory) => Err(WriteError::Memory),
    }
}

/// Pushes what the pieces of the instance write, within the root.
fn push_document<O: Sink>(model: &Model, instance: &Instance, sink: &mut O) -> Result<(), SinkError>
    requires { (bytes : List ℕ) × AreWritten (types_of model.now) (innermost_begun (types_of model.now) 0) instance.now.region.pieces bytes }
    ensures { (bytes : List ℕ) → AreWritten (types_of model.now) (innermost_begun (types_of model.now) 0) instance.now.region.pieces bytes
        → Pushes O.held O.faults O.room sink.old sink.new result (document_text model.now bytes) }
{
    if let Err(error) = push_head(model, sink) {
        return Err(error);
    }
    if let Err(error) = push_pieces(model, instance, sink) {
        return Err(error);
    }
    push_bytes(b"</Document>\n", sink)
}

/// Pushes what stands before the content of the root; the start tag of an amount is not ended.
fn push_head<O: Sink>(model: &Model, sink: &mut O) -> Result<(), SinkError>
    ensures { Pushes O.held O.faults O.room sink.old sink.new result (document_head (message_namespace model.now) (is_amount (types_of model.now 0))) }
{
    let end = tag_end(is_amount(model, 0));
    push_root(NAMESPACE_FRONT, model.id().bytes(), end, sink)
}

/// Pushes the declaration of XML and the start tag of the root, whose namespace is of two parts.
fn push_root<'a, O: Sink>(
    front: &'a [u8],
    id: &'a [u8],
    end: &'a [u8],
    sink: &mut O,
) -> Result<(), SinkError>
    ensures { Pushes O.held O.faults O.room sink.old sink.new result (root_text (front.now ++ id.now) end.now) }
{
    let parts = [
        Part::Bytes(b"<?xml version=\"1.0\" encoding=\"UTF-8\"?>\n<Document xmlns=\""),
        Part::Bytes(front),
        Part::Bytes(id),
        Part::Bytes(b"\""),
        Part::Bytes(end),
    ];
    render_all(parts.as_slice(), sink)
}
