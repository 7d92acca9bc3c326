//! The tags of elements: XML 1.0 §3.1.
ghost use Rattle.std.specs.Prelude.{◌≡◌, ◌++◌, ℕ, IsTrue, false, Some, slice_get};
ghost use Rattle.outside.specs.Pushes.{Pushes};
ghost use Rattle.reference_check.specs.Forms.{Slot as Slotted, form_slots};
ghost use Rattle.message_model.specs.Tables.{types_of};
ghost use Rattle.xml_writer.specs.CanonXml.{end_tag};
ghost use Rattle.xml_writer.specs.inner.PieceTexts.{begun_tag, tag_end};

use inst_pool::Edge;
use message_model::Model;
use outside::{Buffer, Sink, SinkError, push_bytes};

/// Pushes the start tag of an element, which may be left unended.
#[inline(always)]
pub(crate) fn push_begin<O: Sink>(
    model: &Model,
    edge: &Edge,
    unended: bool,
    sink: &mut O,
) -> Result<(), SinkError>
    requires { (s : Slotted ℕ) × (slice_get (form_slots (types_of model.now edge.now.parent)) edge.now.slot ≡ Some s) }
    ensures { (s : Slotted ℕ) → slice_get (form_slots (types_of model.now edge.now.parent)) edge.now.slot ≡ Some s
        → Pushes O.held O.faults O.room sink.old sink.new result (begun_tag s.tag unended) }
{
    if let Err(error) = push_bytes(b"<", sink) {
        return Err(error);
    }
    if let Err(error) = push_bytes(tag_of(model, edge), sink) {
        return Err(error);
    }
    push_tag_end(unended, sink)
}

/// Pushes the end tag of an element.
#[inline(always)]
pub(crate) fn push_end<O: Sink>(model: &Model, edge: &Edge, sink: &mut O) -> Result<(), SinkError>
    requires { (s : Slotted ℕ) × (slice_get (form_slots (types_of model.now edge.now.parent)) edge.now.slot ≡ Some s) }
    ensures { (s : Slotted ℕ) → slice_get (form_slots (types_of model.now edge.now.parent)) edge.now.slot ≡ Some s
        → Pushes O.held O.faults O.room sink.old sink.new result (end_tag s.tag) }
{
    if let Err(error) = push_bytes(b"</", sink) {
        return Err(error);
    }
    if let Err(error) = push_bytes(tag_of(model, edge), sink) {
        return Err(error);
    }
    push_bytes(b">", sink)
}

/// Puts the start tag of an element into the buffer, which may be left unended. `false` where it has not the room; it is as before.
#[inline(always)]
pub(crate) fn put_begin(model: &Model, edge: &Edge, unended: bool, buffer: &mut Buffer) -> bool
    requires { (s : Slotted ℕ) × (slice_get (form_slots (types_of model.now edge.now.parent)) edge.now.slot ≡ Some s) }
    ensures put { IsTrue result → (s : Slotted ℕ) → slice_get (form_slots (types_of model.now edge.now.parent)) edge.now.slot ≡ Some s
        → buffer.new ≡ buffer.old ++ begun_tag s.tag unended }
    ensures kept { result ≡ false → buffer.new ≡ buffer.old }
{
    let tag = tag_of(model, edge);
    if unended {
        return buffer.put_all(b"<", tag, b"");
    }
    buffer.put_all(b"<", tag, b">")
}

/// Puts the end tag of an element into the buffer. `false` where it has not the room; it is as before.
#[inline(always)]
pub(crate) fn put_end(model: &Model, edge: &Edge, buffer: &mut Buffer) -> bool
    requires { (s : Slotted ℕ) × (slice_get (form_slots (types_of model.now edge.now.parent)) edge.now.slot ≡ Some s) }
    ensures put { IsTrue result → (s : Slotted ℕ) → slice_get (form_slots (types_of model.now edge.now.parent)) edge.now.slot ≡ Some s
        → buffer.new ≡ buffer.old ++ end_tag s.tag }
    ensures kept { result ≡ false → buffer.new ≡ buffer.old }
{
    buffer.put_all(b"</", tag_of(model, edge), b">")
}

/// The tag of an element.
#[inline(always)]
pub(crate) fn tag_of<'a>(model: &'a Model, edge: &Edge) -> &'a [u8]
    requires { (s : Slotted ℕ) × (slice_get (form_slots (types_of model.now edge.now.parent)) edge.now.slot ≡ Some s) }
    ensures { (s : Slotted ℕ) → slice_get (form_slots (types_of model.now edge.now.parent)) edge.now.slot ≡ Some s → result.now ≡ s.tag }
{
    let Some(slot) = model.slot(edge.parent, edge.slot) else {
        unreachable!()
    };
    slot.tag
}

/// How a start tag ends that may be left unended.
#[inline(always)]
pub(crate) fn tag_end(unended: bool) -> &'static [u8]
    ensures { result.now ≡ tag_end unended }
{
    if unended { b"" } else { b">" }
}

/// Pushes the end of a start tag that may be left unended.
#[inline]
fn push_tag_end<O: Sink>(unended: bool, sink: &mut O) -> Result<(), SinkError>
    ensures { Pushes O.held O.faults O.room sink.old sink.new result (tag_end unended) }
{
    if unended {
        return push_bytes(b"", sink);
    }
    push_bytes(b">", sink)
}
