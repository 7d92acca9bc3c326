//! The base64 text of octets, pushed on a sink in chunks: XML Schema part 2 §3.2.16, as in RFC 4648 §4.
ghost use Rattle.std.specs.Prelude.{◌≡◌, ◌≤◌, length, take};
ghost use Rattle.base64.specs.Engines.{standard};
ghost use Rattle.base64.specs.GeneralPurpose.{encode_of};
ghost use Rattle.outside.specs.Sink.{PushAppends, HasSinkCause, HasRoom};

use base64::engine::general_purpose::STANDARD;
use outside::{Sink, SinkError};

/// The octets that are pushed at once: a multiple of three, so that only the last chunk is padded.
const CHUNK: usize = 48;

/// Pushes the text of the octets.
pub fn push_octets<O: Sink>(octets: &[u8], sink: &mut O) -> Result<(), SinkError>
    ensures bytes { PushAppends (O.held sink.old) (O.held sink.new) result (encode_of standard octets.now) }
    ensures cause { HasSinkCause (O.faults sink.old) (O.faults sink.new) result }
    ensures room { HasRoom (O.room sink.old) (O.room sink.new) result (encode_of standard octets.now) }
{
    let mut rest = octets;
    while rest.len() > CHUNK {
        let (chunk, behind) = rest.split_at(CHUNK);
        if let Err(error) = push_chunk(chunk, sink) {
            return Err(error);
        }
        rest = behind;
    }
    push_chunk(rest, sink)
}

/// Pushes the text of a few octets.
fn push_chunk<O: Sink>(chunk: &[u8], sink: &mut O) -> Result<(), SinkError>
    requires { length chunk.now ≤ 48 }
    ensures bytes { PushAppends (O.held sink.old) (O.held sink.new) result (encode_of standard chunk.now) }
    ensures cause { HasSinkCause (O.faults sink.old) (O.faults sink.new) result }
    ensures room { HasRoom (O.room sink.old) (O.room sink.new) result (encode_of standard chunk.now) }
{
    let mut buf = [0; 64];
    let length = encode_chunk(chunk, buf.as_mut_slice());
    sink.push(&buf[..length])
}

/// Writes the text of a few octets at the front of the buffer, and gives its length.
fn encode_chunk(chunk: &[u8], buf: &mut [u8]) -> usize
    requires few { length chunk.now ≤ 48 }
    requires room { length buf.old ≡ 64 }
    ensures bound { result ≤ 64 }
    ensures text { take result buf.new ≡ encode_of standard chunk.now }
{
    match STANDARD.encode_slice(chunk, buf) {
        Ok(length) => length,
        Err(_) => unreachable!(),
    }
}
