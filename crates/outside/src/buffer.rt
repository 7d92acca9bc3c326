//! Bytes that are gathered before they go to a sink.
ghost use Rattle.std.specs.Prelude.{◌≡◌, ◌+◌, ◌-◌, ◌<◌, ◌≤◌, ◌++◌, IsTrue, false, Some, [], length, take, OnErr};
ghost use Rattle.outside.specs.Pushes.{Pushes};
ghost use Rattle.outside.specs.Sink.{PushAppends, HasSinkCause, HasRoom};

use super::errors::SinkError;
use super::render::push_bytes;
use super::sink::Sink;
use lexical_core::put_bytes;
use std::marker::Model;

/// The most bytes that are gathered.
const ROOM: usize = 8192;

/// At most 8,192 bytes that wait to go to a sink, since many small pushes cost more than one. It takes no memory of its own.
#[derive(Drop)]
pub struct Buffer {
    bytes: [u8; ROOM],
    count: usize,
}

impl Model for Buffer {
    ghost use Rattle.std.specs.Prelude.{◌≤◌, List, ℕ, take};

    ghost Value = { List ℕ };

    ghost view = { λ b. take b.count b.bytes };

    ghost invariant = { λ b. b.count ≤ 8192 };
}

impl Buffer {
    /// No bytes.
    pub fn new() -> Buffer
        ensures { result ≡ [] }
    {
        Buffer {
            bytes: [0; ROOM],
            count: 0,
        }
    }

    /// How many bytes wait.
    pub fn len(&self) -> usize
        ensures { result ≡ length self.now }
    {
        self.count
    }

    /// How many more bytes there is room for.
    pub fn spare(&self) -> usize
        ensures { result ≡ 8192 - length self.now }
    {
        ROOM - self.count
    }

    /// Keeps the first bytes.
    pub fn truncate(&mut self, count: usize)
        requires { count ≤ length self.old }
        ensures { self.new ≡ take count self.old }
    {
        self.count = count;
    }

    /// Puts three texts, one behind the other, with one look at the room. `false` where there is not the room for all three; all is
    /// as before.
    #[inline(always)]
    pub fn put_all(&mut self, front: &[u8], middle: &[u8], end: &[u8]) -> bool
        ensures put { IsTrue result → self.new ≡ self.old ++ (front.now ++ (middle.now ++ end.now)) }
        ensures kept { result ≡ false → self.new ≡ self.old }
        ensures full { result ≡ false → 8192 - length self.old < length front.now + (length middle.now + length end.now) }
    {
        if !all_fit(ROOM - self.count, front.len(), middle.len(), end.len()) {
            return false;
        }
        let behind_front = put_bytes(&mut self.bytes, self.count, front);
        let behind_middle = put_bytes(&mut self.bytes, behind_front, middle);
        self.count = put_bytes(&mut self.bytes, behind_middle, end);
        true
    }

    /// Pushes all bytes to the sink; none is left, also after an error.
    pub fn flush<O: Sink>(&mut self, sink: &mut O) -> Result<(), SinkError>
        ensures push { Pushes O.held O.faults O.room sink.old sink.new result self.old }
        ensures empty { self.new ≡ [] }
    {
        let count = self.count;
        self.count = 0;
        push_bytes(&self.bytes[..count], sink)
    }
}

impl Sink for Buffer {
    ghost use Rattle.std.specs.Prelude.{◌-◌, Some, length};

    ghost held = { λ b. Some b };

    ghost faults = { λ _. 0 };

    ghost room = { λ b. 8192 - length b };

    fn push(&mut self, bytes: &[u8]) -> Result<(), SinkError>
        ensures bytes { PushAppends (Some self.old) (Some self.new) result bytes.now }
        ensures cause { HasSinkCause 0 0 result }
        ensures room { HasRoom (8192 - length self.old) (8192 - length self.new) result bytes.now }
        ensures unchanged { OnErr result (self.new ≡ self.old) }
    {
        if bytes.len() > ROOM - self.count {
            return Err(SinkError::Memory);
        }
        self.count = put_bytes(&mut self.bytes, self.count, bytes);
        Ok(())
    }
}

/// Whether there is the room for three texts. Their lengths together may be more than a number holds.
#[inline(always)]
fn all_fit(room: usize, front: usize, middle: usize, end: usize) -> bool
    ensures fit { IsTrue result → front + (middle + end) ≤ room }
    ensures less { result ≡ false → room < front + (middle + end) }
{
    front <= room && end <= room - front && middle <= room - front - end
}
