//! A source over a reader and a sink over a writer: where the program meets files and streams.
ghost use Rattle.std.specs.Prelude.{◌≡◌, ◌+◌, ◌-◌, ◌^◌, Some, None, min, IsErr, IsNone, MatchResult, IsOkUnless, Option, true};
ghost use Rattle.std.specs.Io.{ReadsAtMost};
ghost use Rattle.std.specs.Io.KnownBytes.{ReadConsumes};
ghost use Rattle.std.specs.Option.{option_and_then};
ghost use Rattle.outside.specs.Source.{HasCause};
ghost use Rattle.outside.specs.Sink.{PushAppends, HasSinkCause, HasRoom};

use super::errors::{Failed, SinkError};
use super::sink::Sink;
use super::source::Source;
use std::io::{Read, Write};
use std::marker::Model;

/// A source over a reader, as a file or standard input. It tells what its reader tells, which is
/// nothing for a file.
#[derive(Drop)]
pub struct ReadSource<R> {
    inner: Option<R>,
    faults: u64,
}

impl<R> Model for ReadSource<R> {
    ghost use Rattle.outside.specs.Edge.{ReadEdge};

    ghost Value = { ReadEdge R };

    ghost view = { λ s. record { reader = s.inner; faults = s.faults } };
}

impl<R: Read> ReadSource<R> {
    /// A source over that reader.
    pub fn new(inner: R) -> ReadSource<R>
        ensures { result ≡ record { reader = Some inner; faults = 0 } }
    {
        ReadSource {
            inner: Some(inner),
            faults: 0,
        }
    }

    /// A source with no reader: each pull fails.
    pub fn closed() -> ReadSource<R>
        ensures { result ≡ record { reader = None; faults = 0 } }
    {
        ReadSource {
            inner: None,
            faults: 0,
        }
    }
}

impl<R: Read> Source for ReadSource<R> {
    ghost left = { λ s. option_and_then R.remaining s.reader };

    ghost faults = { λ s. s.faults };

    ghost may_be_pulled = { λ _. true };

    fn pull(&mut self, buf: &mut [u8]) -> Result<usize, Failed>
        ensures bound { ReadsAtMost result buf.new }
        ensures bytes { ReadConsumes (option_and_then R.remaining self.old.reader)
            (option_and_then R.remaining self.new.reader) result buf.new }
        ensures cause { HasCause self.old.faults self.new.faults result }
        ensures closed { IsNone self.old.reader → IsErr result × IsNone self.new.reader }
        ensures faults { MatchResult result (λ _. self.new.faults ≡ self.old.faults)
            (λ _. self.new.faults ≡ min (self.old.faults + 1) (2 ^ 64 - 1)) }
    {
        if let Some(inner) = &mut self.inner {
            if let Ok(count) = inner.read(buf) {
                return Ok(count);
            }
        }
        self.faults = self.faults.saturating_add(1);
        Err(Failed)
    }
}

/// A sink over a writer, as a file or standard output. It tells what its writer tells, which is
/// nothing for a file. It takes no memory.
#[derive(Drop)]
pub struct WriteSink<W> {
    inner: W,
    faults: u64,
}

impl<W> Model for WriteSink<W> {
    ghost use Rattle.outside.specs.Edge.{WriteEdge};

    ghost Value = { WriteEdge W };

    ghost view = { λ s. record { writer = s.inner; faults = s.faults } };
}

impl<W: Write> WriteSink<W> {
    /// A sink over that writer.
    pub fn new(inner: W) -> WriteSink<W>
        ensures { result ≡ record { writer = inner; faults = 0 } }
    {
        WriteSink { inner, faults: 0 }
    }
}

impl<W: Write> Sink for WriteSink<W> {
    ghost held = { λ s. W.contents s.writer };

    ghost faults = { λ s. s.faults };

    ghost room = { λ _. 2 ^ 64 };

    /// Writes until all is written. A write of no bytes is a failure, as is an error.
    fn push(&mut self, bytes: &[u8]) -> Result<(), SinkError>
        ensures bytes { PushAppends (W.contents self.old.writer) (W.contents self.new.writer) result bytes.now }
        ensures cause { HasSinkCause self.old.faults self.new.faults result }
        ensures room { HasRoom (2 ^ 64) (2 ^ 64) result bytes.now }
        ensures no_memory { IsOkUnless result SinkError.Failed }
        ensures faults { MatchResult result (λ _. self.new.faults ≡ self.old.faults)
            (λ _. self.new.faults ≡ min (self.old.faults + 1) (2 ^ 64 - 1)) }
    {
        let mut rest = bytes;
        while !rest.is_empty() {
            match self.inner.write(rest) {
                Ok(count) if count > 0 => rest = rest.split_at(count).1,
                _ => {
                    self.faults = self.faults.saturating_add(1);
                    return Err(SinkError::Failed);
                }
            }
        }
        Ok(())
    }
}
