//! A source and a sink in memory whose calls of given numbers fail.
ghost use Rattle.std.specs.Prelude.{◌≡◌, ◌+◌, ◌-◌, ◌^◌, ◌<◌, ◌≤◌, ◌↔◌, Some, [], length, min, drop, IfOk, IfErr, OnErr, IsErr, IsErrOf, MatchResult, Contains, IsTrue, MatchBool, true};
ghost use Rattle.std.specs.Io.{ReadsAtMost};
ghost use Rattle.std.specs.Io.KnownBytes.{ReadConsumes};
ghost use Rattle.outside.specs.Source.{HasCause};
ghost use Rattle.outside.specs.Sink.{PushAppends, HasSinkCause, HasRoom};

use super::errors::{Failed, SinkError};
use super::serve::serve;
use super::sink::Sink;
use super::source::Source;
use std::alloc::{AllocError, Global};
use std::marker::Model;

/// Which calls fail, and how many there were. Both counts stand still at `u64::MAX`.
#[derive(Drop)]
struct Script {
    fails: Vec<u64>,
    calls: u64,
    faults: u64,
}

impl Script {
    /// Before the first call; the calls of these numbers fail, from 0.
    fn new(alloc: Global, fails: &[u64]) -> Result<Script, AllocError>
        ensures { IfOk result (λ s. (s.fails.items ≡ fails.now) × (s.calls ≡ 0) × (s.faults ≡ 0)) }
    {
        Ok(Script {
            fails: Vec::from_slice(alloc, fails)?,
            calls: 0,
            faults: 0,
        })
    }

    /// Counts one more call, and says whether it fails.
    fn fails_now(&mut self) -> bool
        ensures fails { IsTrue result ↔ Contains self.old.fails.items self.old.calls }
        ensures later { self.old.faults ≤ self.new.faults }
        ensures faults { MatchBool result (self.new.faults ≡ min (self.old.faults + 1) (2 ^ 64 - 1))
            (self.new.faults ≡ self.old.faults) }
        ensures calls { self.new.calls ≡ min (self.old.calls + 1) (2 ^ 64 - 1) }
        ensures same { self.new.fails ≡ self.old.fails }
    {
        let fails = self.fails.contains(&self.calls);
        self.calls = self.calls.saturating_add(1);
        if fails {
            self.faults = self.faults.saturating_add(1);
        }
        fails
    }
}

/// A source in memory that gives its bytes in pieces, and fails at the calls of given numbers.
#[derive(Drop)]
pub struct MemSource {
    bytes: Vec<u8>,
    given: usize,
    piece: usize,
    script: Script,
}

impl Model for MemSource {
    ghost use Rattle.std.specs.Prelude.{◌<◌, ◌≤◌, drop, vec_len};
    ghost use Rattle.outside.specs.Memory.{SourceScript};

    ghost Value = { SourceScript };

    ghost view = { λ s. record {
      left = drop s.given s.bytes.items;
      piece = s.piece;
      fails = s.script.fails.items;
      calls = s.script.calls;
      faults = s.script.faults;
    } };

    ghost invariant = { λ s. (s.given ≤ vec_len s.bytes) × (0 < s.piece) };
}

impl MemSource {
    /// A source of these bytes that gives at most `piece` of them at a call. The calls of `pull` are
    /// numbered from 0, and those whose numbers stand in `fails` fail.
    pub fn new(
        alloc: Global,
        bytes: &[u8],
        piece: usize,
        fails: &[u64],
    ) -> Result<MemSource, AllocError>
        requires { 0 < piece }
        ensures { IfOk result (λ s. s ≡ record {
          left = bytes.now;
          piece = piece;
          fails = fails.now;
          calls = 0;
          faults = 0;
        }) }
    {
        Ok(MemSource {
            bytes: Vec::from_slice(alloc, bytes)?,
            given: 0,
            piece,
            script: Script::new(alloc, fails)?,
        })
    }
}

impl Source for MemSource {
    ghost left = { λ s. Some s.left };

    ghost faults = { λ s. s.faults };

    ghost may_be_pulled = { λ _. true };

    fn pull(&mut self, buf: &mut [u8]) -> Result<usize, Failed>
        ensures bound { ReadsAtMost result buf.new }
        ensures bytes { ReadConsumes (Some self.old.left) (Some self.new.left) result buf.new }
        ensures cause { HasCause self.old.faults self.new.faults result }
        ensures fails { IsErr result ↔ Contains self.old.fails self.old.calls }
        ensures count { IfOk result (λ n. n ≡ min (length self.old.left) (min self.old.piece (length buf.old))) }
        ensures behind { MatchResult result (λ n. drop n buf.new ≡ drop n buf.old) (λ _. buf.new ≡ buf.old) }
        ensures faults { MatchResult result (λ _. self.new.faults ≡ self.old.faults)
            (λ _. self.new.faults ≡ min (self.old.faults + 1) (2 ^ 64 - 1)) }
        ensures calls { self.new.calls ≡ min (self.old.calls + 1) (2 ^ 64 - 1) }
        ensures same_fails { self.new.fails ≡ self.old.fails }
        ensures same_piece { self.new.piece ≡ self.old.piece }
    {
        if self.script.fails_now() {
            return Err(Failed);
        }
        let count = serve(
            self.bytes.as_slice().split_at(self.given).1,
            self.piece,
            buf,
        );
        self.given += count;
        Ok(count)
    }
}

/// A sink in memory that fails at the calls of given numbers.
#[derive(Drop)]
pub struct MemSink {
    bytes: Vec<u8>,
    script: Script,
}

impl Model for MemSink {
    ghost use Rattle.outside.specs.Memory.{SinkScript};

    ghost Value = { SinkScript };

    ghost view = { λ s. record {
      held = s.bytes.items;
      fails = s.script.fails.items;
      calls = s.script.calls;
      faults = s.script.faults;
    } };
}

impl MemSink {
    /// An empty sink. The calls of `push` are numbered from 0, and those whose numbers stand in
    /// `fails` fail and hold nothing of their bytes.
    pub fn new(alloc: Global, fails: &[u64]) -> Result<MemSink, AllocError>
        ensures { IfOk result (λ s. s ≡ record { held = []; fails = fails.now; calls = 0; faults = 0 }) }
    {
        Ok(MemSink {
            bytes: Vec::new(alloc),
            script: Script::new(alloc, fails)?,
        })
    }

    /// The bytes that are held.
    pub fn bytes(&self) -> &[u8]
        ensures { result.now ≡ self.now.held }
    {
        self.bytes.as_slice()
    }
}

impl Sink for MemSink {
    ghost held = { λ s. Some s.held };

    ghost faults = { λ s. s.faults };

    ghost room = { λ _. 0 };

    fn push(&mut self, bytes: &[u8]) -> Result<(), SinkError>
        ensures bytes { PushAppends (Some self.old.held) (Some self.new.held) result bytes.now }
        ensures cause { HasSinkCause self.old.faults self.new.faults result }
        ensures room { HasRoom 0 0 result bytes.now }
        ensures fails { IsErrOf result SinkError.Failed ↔ Contains self.old.fails self.old.calls }
        ensures unchanged { OnErr result (self.new.held ≡ self.old.held) }
        ensures rises { IsErrOf result SinkError.Failed → self.new.faults ≡ min (self.old.faults + 1) (2 ^ 64 - 1) }
        ensures calls { self.new.calls ≡ min (self.old.calls + 1) (2 ^ 64 - 1) }
        ensures same_fails { self.new.fails ≡ self.old.fails }
    {
        if self.script.fails_now() {
            return Err(SinkError::Failed);
        }
        append(&mut self.bytes, bytes)
    }
}

/// Appends to the bytes that a sink holds. No bytes ask for no memory. The error is `Memory`, and then they are as before.
pub fn append(held: &mut Vec<u8>, bytes: &[u8]) -> Result<(), SinkError>
    ensures bytes { PushAppends (Some held.old.items) (Some held.new.items) result bytes.now }
    ensures unchanged { OnErr result (held.new.items ≡ held.old.items) }
    ensures memory { IfErr result (λ e. (e ≡ SinkError.Memory) × (0 < length bytes.now)) }
{
    if !bytes.is_empty() {
        held.extend_from_slice(bytes)?;
    }
    Ok(())
}
