//! A source and a sink in memory that never fail.
ghost use Rattle.std.specs.Prelude.{◌≡◌, ◌+◌, ◌-◌, ◌<◌, ◌≤◌, Some, [], length, min, drop, Ok, IfOk, IsOk, IsErrOf, OnErr, true};
ghost use Rattle.std.specs.Io.{ReadsAtMost};
ghost use Rattle.std.specs.Io.KnownBytes.{ReadConsumes};
ghost use Rattle.outside.specs.Source.{HasCause};
ghost use Rattle.outside.specs.Sink.{PushAppends, HasSinkCause, HasRoom};

use super::errors::{Failed, SinkError};
use super::serve::serve;
use super::sink::Sink;
use super::source::Source;
use std::alloc::{AllocError, Global};
use std::marker::Model;

/// A source in memory that gives its bytes in pieces and never fails.
#[derive(Drop)]
pub struct SteadySource {
    bytes: Vec<u8>,
    given: usize,
    piece: usize,
}

impl Model for SteadySource {
    ghost use Rattle.std.specs.Prelude.{◌<◌, ◌≤◌, drop, vec_len};
    ghost use Rattle.outside.specs.Steady.{SteadyLeft};

    ghost Value = { SteadyLeft };

    ghost view = { λ s. record { left = drop s.given s.bytes.items; piece = s.piece } };

    ghost invariant = { λ s. (s.given ≤ vec_len s.bytes) × (0 < s.piece) };
}

impl SteadySource {
    /// A source of these bytes that gives at most `piece` of them at a call.
    pub fn new(alloc: Global, bytes: &[u8], piece: usize) -> Result<SteadySource, AllocError>
        requires { 0 < piece }
        ensures { IfOk result (λ s. s ≡ record { left = bytes.now; piece = piece }) }
    {
        Ok(SteadySource {
            bytes: Vec::from_slice(alloc, bytes)?,
            given: 0,
            piece,
        })
    }
}

impl Source for SteadySource {
    ghost left = { λ s. Some s.left };

    ghost faults = { λ _. 0 };

    ghost may_be_pulled = { λ _. true };

    fn pull(&mut self, buf: &mut [u8]) -> Result<usize, Failed>
        ensures bound { ReadsAtMost result buf.new }
        ensures bytes { ReadConsumes (Some self.old.left) (Some self.new.left) result buf.new }
        ensures cause { HasCause 0 0 result }
        ensures count { result ≡ Ok (min (length self.old.left) (min self.old.piece (length buf.old))) }
        ensures behind { IfOk result (λ n. drop n buf.new ≡ drop n buf.old) }
        ensures same_piece { self.new.piece ≡ self.old.piece }
    {
        let count = serve(
            self.bytes.as_slice().split_at(self.given).1,
            self.piece,
            buf,
        );
        self.given += count;
        Ok(count)
    }
}

/// A sink in memory that never answers `Failed`.
#[derive(Drop)]
pub struct SteadySink {
    bytes: Vec<u8>,
}

impl Model for SteadySink {
    ghost use Rattle.std.specs.Prelude.{◌-◌, vec_len, vec_capacity};
    ghost use Rattle.outside.specs.Steady.{SteadyHeld};

    ghost Value = { SteadyHeld };

    ghost view = { λ s. record { held = s.bytes.items; room = vec_capacity s.bytes - vec_len s.bytes } };
}

impl SteadySink {
    /// An empty sink with memory for that many bytes.
    pub fn with_room(alloc: Global, room: usize) -> Result<SteadySink, AllocError>
        ensures { IfOk result (λ s. s ≡ record { held = []; room = room }) }
    {
        Ok(SteadySink {
            bytes: Vec::with_capacity(alloc, room)?,
        })
    }

    /// The bytes that are held.
    pub fn bytes(&self) -> &[u8]
        ensures { result.now ≡ self.now.held }
    {
        self.bytes.as_slice()
    }
}

impl Sink for SteadySink {
    ghost held = { λ s. Some s.held };

    ghost faults = { λ _. 0 };

    ghost room = { λ s. s.room };

    fn push(&mut self, bytes: &[u8]) -> Result<(), SinkError>
        ensures bytes { PushAppends (Some self.old.held) (Some self.new.held) result bytes.now }
        ensures cause { HasSinkCause 0 0 result }
        ensures room { HasRoom self.old.room self.new.room result bytes.now }
        ensures never_failed { IsErrOf result SinkError.Failed → ⊥ }
        ensures within { length bytes.now ≤ self.old.room → IsOk result }
        ensures unchanged { OnErr result (self.new.held ≡ self.old.held) }
    {
        self.bytes.extend_from_slice(bytes)?;
        Ok(())
    }
}
