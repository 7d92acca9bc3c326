//! The texts of leaves: XML 1.0 §2.4 and §3.3.3, with the escapes of Canonical XML 1.0 §2.3, but by decimal references, and `>`
//! escaped in attributes too.
ghost use Rattle.std.specs.Prelude.{◌≡◌, ◌≢◌, ◌++◌, ℕ, List, IsTrue, false, Some, IfSome, IfNone, codes, encode_utf8_all, flat_map, slice_get};
ghost use Rattle.lexical_core.specs.Escapes.{escape_of};
ghost use Rattle.outside.specs.Pushes.{Pushes};
ghost use Rattle.data_types.specs.Leaf.{Bytes as BytesLeaf};
ghost use Rattle.data_types.specs.LeafAnswers.{leaf_of};
ghost use Rattle.facets.specs.LeafUnder.{IsCanonicalUnder, Fits};
ghost use Rattle.message_model.specs.Admits.{FitsCode};
ghost use Rattle.message_model.specs.Tables.{types_of};
ghost use Rattle.xml_writer.specs.CanonXml.{IsCodeText, currency_text};
ghost use Rattle.xml_writer.specs.inner.PieceTexts.{IsHeldText};

use crate::innermost::Innermost;
use crate::texts::{push_spelled, put_spelled};
use data_types::{Kind, LeafRef, push_leaf};
use facets::Simple;
use message_model::{Form, Model};
use outside::{Buffer, Sink, SinkError, push_bytes};

/// Pushes what a leaf of the innermost element writes.
#[inline(always)]
pub(crate) fn push_held<O: Sink>(
    model: &Model,
    innermost: Innermost,
    leaf: &LeafRef<'_>,
    sink: &mut O,
) -> Result<(), SinkError>
    requires { (bytes : List ℕ) × IsHeldText (types_of model.now) innermost.unended (types_of model.now innermost.number) (leaf_of leaf.now) bytes }
    ensures { (bytes : List ℕ) → IsHeldText (types_of model.now) innermost.unended (types_of model.now innermost.number) (leaf_of leaf.now) bytes
        → Pushes O.held O.faults O.room sink.old sink.new result bytes }
{
    match model.form(innermost.number) {
        Some(Form::Simple(simple)) => push_text(simple, leaf, false, sink),
        Some(Form::Money { code, base }) => {
            if innermost.unended {
                push_currency(model, code, leaf, sink)
            } else {
                push_text(base, leaf, false, sink)
            }
        }
        Some(Form::Envelope) => push_fragment(leaf, sink),
        _ => unreachable!(),
    }
}

/// Pushes the fragment that an envelope holds, as it stands.
fn push_fragment<O: Sink>(leaf: &LeafRef<'_>, sink: &mut O) -> Result<(), SinkError>
    requires { (bytes : List ℕ) × (leaf_of leaf.now ≡ BytesLeaf bytes) }
    ensures { (bytes : List ℕ) → leaf_of leaf.now ≡ BytesLeaf bytes → Pushes O.held O.faults O.room sink.old sink.new result bytes }
{
    match leaf {
        LeafRef::Bytes(bytes) => push_bytes(bytes, sink),
        _ => unreachable!(),
    }
}

/// Pushes the attribute with the code of an amount, and the end of the start tag.
fn push_currency<O: Sink>(
    model: &Model,
    code: u32,
    leaf: &LeafRef<'_>,
    sink: &mut O,
) -> Result<(), SinkError>
    requires { FitsCode (types_of model.now code) (leaf_of leaf.now) }
    ensures { (text : List ℕ) → IsCodeText (types_of model.now code) (leaf_of leaf.now) text
        → Pushes O.held O.faults O.room sink.old sink.new result (currency_text text ++ codes ">") }
{
    if let Err(error) = push_bytes(b" Ccy=\"", sink) {
        return Err(error);
    }
    if let Err(error) = push_code(model, code, leaf, sink) {
        return Err(error);
    }
    push_bytes(b"\">", sink)
}

/// Pushes the code of an amount.
fn push_code<O: Sink>(
    model: &Model,
    code: u32,
    leaf: &LeafRef<'_>,
    sink: &mut O,
) -> Result<(), SinkError>
    requires { FitsCode (types_of model.now code) (leaf_of leaf.now) }
    ensures { (text : List ℕ) → IsCodeText (types_of model.now code) (leaf_of leaf.now) text
        → Pushes O.held O.faults O.room sink.old sink.new result text }
{
    match model.form(code) {
        Some(Form::Simple(simple)) => push_text(simple, leaf, true, sink),
        _ => unreachable!(),
    }
}

/// Pushes the canonical text of a leaf that fits, in an element or in the value of an attribute.
fn push_text<O: Sink>(
    simple: &Simple,
    leaf: &LeafRef<'_>,
    attribute: bool,
    sink: &mut O,
) -> Result<(), SinkError>
    requires { Fits simple.now (leaf_of leaf.now) }
    ensures { (chars : List ℕ) → IsCanonicalUnder simple.now (leaf_of leaf.now) chars
        → Pushes O.held O.faults O.room sink.old sink.new result (flat_map (escape_of attribute) chars) }
{
    match text_of(simple, leaf) {
        Some(text) => push_spelled(text, attribute, sink),
        None => push_leaf(simple.kind, leaf, sink),
    }
}

/// Puts the text that a leaf of the innermost element writes into the buffer, where each of its bytes stands for itself. `false` where
/// one does not, where the leaf is no text, or the buffer has not the room; it is as before.
#[inline(always)]
pub(crate) fn put_plain(
    model: &Model,
    innermost: Innermost,
    leaf: &LeafRef<'_>,
    buffer: &mut Buffer,
) -> bool
    requires { (bytes : List ℕ) × IsHeldText (types_of model.now) innermost.unended (types_of model.now innermost.number) (leaf_of leaf.now) bytes }
    ensures put { IsTrue result → (bytes : List ℕ) → IsHeldText (types_of model.now) innermost.unended (types_of model.now innermost.number) (leaf_of leaf.now) bytes
        → buffer.new ≡ buffer.old ++ bytes }
    ensures kept { result ≡ false → buffer.new ≡ buffer.old }
{
    match model.form(innermost.number) {
        Some(Form::Simple(simple)) => put_plain_text(simple, leaf, buffer),
        _ => false,
    }
}

/// Puts the canonical text of a leaf that fits into the buffer, where each of its bytes stands for itself.
#[inline(always)]
fn put_plain_text(simple: &Simple, leaf: &LeafRef<'_>, buffer: &mut Buffer) -> bool
    requires { Fits simple.now (leaf_of leaf.now) }
    ensures put { IsTrue result → (chars : List ℕ) → IsCanonicalUnder simple.now (leaf_of leaf.now) chars
        → buffer.new ≡ buffer.old ++ flat_map (escape_of false) chars }
    ensures kept { result ≡ false → buffer.new ≡ buffer.old }
{
    match text_of(simple, leaf) {
        Some(text) => put_spelled(text, buffer),
        None => false,
    }
}

/// The text of a leaf of a text that fits: that of its code where there are codes. `None` where it is of another kind.
#[inline(always)]
pub(crate) fn text_of<'a>(simple: &'a Simple, leaf: &LeafRef<'a>) -> Option<&'a [u8]>
    requires { Fits simple.now (leaf_of leaf.now) }
    ensures some { IfSome result (λ text. (chars : List ℕ) → IsCanonicalUnder simple.now (leaf_of leaf.now) chars → text.now ≡ encode_utf8_all chars) }
    ensures none { IfNone result (simple.now.kind ≢ Kind.Text) }
{
    if simple.kind != Kind::Text {
        return None;
    }
    match leaf {
        LeafRef::Bytes(bytes) => Some(bytes),
        LeafRef::Code(place) => Some(code_at(simple, *place)),
        _ => unreachable!(),
    }
}

/// The text of the code at that place.
#[inline(always)]
fn code_at(simple: &Simple, place: u32) -> &[u8]
    requires { (codes : List (List ℕ)) × (text : List ℕ) × (simple.now.codes ≡ Some codes) × (slice_get codes place ≡ Some text) }
    ensures { (codes : List (List ℕ)) (text : List ℕ) → simple.now.codes ≡ Some codes → slice_get codes place ≡ Some text → result.now ≡ text }
{
    let Some(codes) = &simple.codes else {
        unreachable!()
    };
    let Some(text) = codes.get(place as usize) else {
        unreachable!()
    };
    text.bytes()
}
