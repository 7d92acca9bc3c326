//! Texts as XML spells them: XML 1.0 §2.4 and §3.3.3.
ghost use Rattle.std.specs.Prelude.{◌≡◌, ◌++◌, ℕ, List, IsTrue, false, encode_utf8_all, flat_map, length};
ghost use Rattle.std.specs.List.{prefix_len};
ghost use Rattle.lexical_core.specs.Escapes.{escape_of};
ghost use Rattle.outside.specs.Pushes.{Pushes};
ghost use Rattle.xml_writer.specs.CanonXml.{end_tag};
ghost use Rattle.xml_writer.specs.inner.PieceTexts.{begun_tag};
ghost use Rattle.xml_writer.specs.inner.PlainTexts.{is_plain_anywhere};

use data_types::push_escaped;
use lexical_core::{ByteClass, run_length};
use outside::{Buffer, Sink, SinkError, push_bytes};
use std::simd::prelude::*;

/// The bytes that stand for themselves in an element and in the value of an attribute, but for controls.
struct Plain;

impl ByteClass for Plain {
    ghost class = { λ _. is_plain_anywhere };

    #[inline]
    fn has(&self, byte: u8) -> bool {
        byte >= 0x20 && byte != b'"' && byte != b'&' && byte != b'<' && byte != b'>'
    }

    #[inline]
    fn others(&self, bytes: u8x16) -> u64 {
        (bytes.simd_le(u8x16::splat(0x1F))
            | bytes.simd_eq(u8x16::splat(b'"'))
            | bytes.simd_eq(u8x16::splat(b'&'))
            | bytes.simd_eq(u8x16::splat(b'<'))
            | bytes.simd_eq(u8x16::splat(b'>'))).to_bitmask()
    }

    #[inline]
    fn others_of_eight(&self, bytes: u8x8) -> u64 {
        (bytes.simd_le(u8x8::splat(0x1F))
            | bytes.simd_eq(u8x8::splat(b'"'))
            | bytes.simd_eq(u8x8::splat(b'&'))
            | bytes.simd_eq(u8x8::splat(b'<'))
            | bytes.simd_eq(u8x8::splat(b'>'))).to_bitmask()
    }
}

/// Pushes a text as it is spelled in an element or in the value of an attribute: at once, where each of its bytes stands
/// for itself.
#[inline]
pub(crate) fn push_spelled<O: Sink>(
    text: &[u8],
    attribute: bool,
    sink: &mut O,
) -> Result<(), SinkError>
    ensures { (chars : List ℕ) → text.now ≡ encode_utf8_all chars
        → Pushes O.held O.faults O.room sink.old sink.new result (flat_map (escape_of attribute) chars) }
{
    if stands_for_itself(text) {
        return push_bytes(text, sink);
    }
    push_escaped(text, attribute, sink)
}

/// Puts a text into the buffer, where each of its bytes stands for itself. `false` where one does not, or the buffer has not the
/// room; it is as before.
#[inline(always)]
pub(crate) fn put_spelled(text: &[u8], buffer: &mut Buffer) -> bool
    ensures put { IsTrue result → (chars : List ℕ) → text.now ≡ encode_utf8_all chars → buffer.new ≡ buffer.old ++ flat_map (escape_of false) chars }
    ensures kept { result ≡ false → buffer.new ≡ buffer.old }
{
    if !stands_for_itself(text) {
        return false;
    }
    buffer.put_all(b"", text, b"")
}

/// Puts an element with this tag and a text into the buffer, where each byte of the text stands for itself. `false` where one does
/// not, or the buffer has not the room; it is as before.
#[inline(always)]
pub(crate) fn put_spelled_within(tag: &[u8], text: &[u8], buffer: &mut Buffer) -> bool
    ensures put { IsTrue result → (chars : List ℕ) → text.now ≡ encode_utf8_all chars
        → buffer.new ≡ buffer.old ++ (begun_tag tag.now false ++ (flat_map (escape_of false) chars ++ end_tag tag.now)) }
    ensures kept { result ≡ false → buffer.new ≡ buffer.old }
{
    if !stands_for_itself(text) {
        return false;
    }
    let count = buffer.len();
    if !buffer.put_all(b"<", tag, b">") {
        return false;
    }
    if put_with_end(tag, text, buffer) {
        return true;
    }
    buffer.truncate(count);
    false
}

/// Puts a text and the end tag behind it into the buffer. `false` where it has not the room; what it had is there.
#[inline(always)]
fn put_with_end(tag: &[u8], text: &[u8], buffer: &mut Buffer) -> bool
    ensures put { IsTrue result → buffer.new ≡ buffer.old ++ (text.now ++ end_tag tag.now) }
    ensures kept { (more : List ℕ) × (buffer.new ≡ buffer.old ++ more) }
{
    if !buffer.put_all(text, b"</", tag) {
        return false;
    }
    buffer.put_all(b">", b"", b"")
}

/// Whether each byte of the text stands for itself, and none is a control.
#[inline]
fn stands_for_itself(text: &[u8]) -> bool
    ensures { IsTrue result → prefix_len is_plain_anywhere text.now ≡ length text.now }
{
    run_length(&Plain, text) == text.len()
}
