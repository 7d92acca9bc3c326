//! The bytes of a text, pushed on a sink with what XML asks to be escaped: XML 1.0 §2.4, §2.11 and §3.3.3.
ghost use Rattle.std.specs.Prelude.{◌≡◌, ◌<◌, ◌≤◌, ℕ, List, IsTrue, encode_utf8_all, flat_map, length, take};
ghost use Rattle.lexical_core.specs.Escapes.{escape_of};
ghost use Rattle.outside.specs.Sink.{PushAppends, HasSinkCause, HasRoom};
ghost use Rattle.data_types.specs.Escaping.{escaped_bytes, IsPlainByte};

use lexical_core::reference_to;
use outside::{Sink, SinkError};

/// The first bytes of a text, and how they are spelled.
#[derive(Clone, Copy)]
struct Piece<'a> {
    count: usize,
    spelled: &'a [u8],
}

/// Pushes the text, in pieces, as it is spelled in the content of an element or in the value of an attribute between
/// double quotes. `Failed` where the sink failed, `Memory` where it wanted memory; the bytes before the fault are
/// pushed.
pub fn push_escaped<O: Sink>(text: &[u8], attribute: bool, sink: &mut O) -> Result<(), SinkError>
    ensures bytes { PushAppends (O.held sink.old) (O.held sink.new) result (escaped_bytes attribute text.now) }
    ensures chars { (chars : List ℕ) → text.now ≡ encode_utf8_all chars
        → escaped_bytes attribute text.now ≡ flat_map (escape_of attribute) chars }
    ensures cause { HasSinkCause (O.faults sink.old) (O.faults sink.new) result }
    ensures room { HasRoom (O.room sink.old) (O.room sink.new) result (escaped_bytes attribute text.now) }
{
    let mut rest = text;
    while !rest.is_empty() {
        let piece = first_piece(rest, attribute);
        if let Err(error) = sink.push(piece.spelled) {
            return Err(error);
        }
        rest = rest.split_at(piece.count).1;
    }
    Ok(())
}

/// The first piece of a text: the bytes that stand for themselves, or one that does not.
fn first_piece(text: &[u8], attribute: bool) -> Piece<'_>
    requires { 0 < length text.now }
    ensures some { 0 < result.count }
    ensures bound { result.count ≤ length text.now }
    ensures spelled { result.spelled.now ≡ escaped_bytes attribute (take result.count text.now) }
{
    let plain = plain_count(text, attribute);
    if plain > 0 {
        return Piece {
            count: plain,
            spelled: text.split_at(plain).0,
        };
    }
    Piece {
        count: 1,
        spelled: match reference_to(text[0] as char, attribute) {
            Some(spelled) => spelled,
            None => text.split_at(1).0,
        },
    }
}

/// How many bytes the text begins with that stand for themselves.
fn plain_count(text: &[u8], attribute: bool) -> usize
    ensures bound { result ≤ length text.now }
    ensures plain { escaped_bytes attribute (take result text.now) ≡ take result text.now }
{
    for (count, byte) in text.iter().enumerate() {
        if !is_plain(*byte, attribute) {
            return count;
        }
    }
    text.len()
}

/// Whether the byte stands for itself.
#[inline]
fn is_plain(byte: u8, attribute: bool) -> bool
    ensures { IsTrue result → IsPlainByte attribute byte }
{
    reference_to(byte as char, attribute).is_none()
}
