//! Texts that are pushed as they are made, and never built.
ghost use Rattle.std.specs.Prelude.{◌≡◌, ℕ, List, [], flat_map};
ghost use Rattle.std.specs.Fmt.{decimal};
ghost use Rattle.outside.specs.Pushes.{Pushes, as_push};

use super::errors::{SinkError, WriteError};
use super::sink::Sink;

/// A text that can be pushed to a sink without being built first.
pub trait Render {
    /// The bytes of the text.
    ghost rendered: { Self → List ℕ };

    /// Pushes the text. After an error the sink holds a front of it behind what it held. It takes no
    /// memory of its own.
    fn render<O: Sink>(&self, sink: &mut O) -> Result<(), SinkError>
        ensures { Pushes O.held O.faults O.room sink.old sink.new result (rendered self.now) };
}

/// A part of a text: bytes as they are, or a number in decimal digits.
#[derive(Clone, Copy)]
pub enum Part<'a> {
    /// These bytes.
    Bytes(&'a [u8]),
    /// This number, in decimal digits.
    Number(u64),
}

impl Render for Part<'_> {
    ghost use Rattle.outside.specs.Parts.{part_text};

    ghost rendered = { part_text };

    fn render<O: Sink>(&self, sink: &mut O) -> Result<(), SinkError>
        ensures { Pushes O.held O.faults O.room sink.old sink.new result (part_text self.now) }
    {
        match self {
            Part::Bytes(bytes) => push_bytes(bytes, sink),
            Part::Number(number) => push_number(*number, sink),
        }
    }
}

/// Pushes bytes; where there are none, nothing is pushed.
pub fn push_bytes<O: Sink>(bytes: &[u8], sink: &mut O) -> Result<(), SinkError>
    ensures push { Pushes O.held O.faults O.room sink.old sink.new result bytes.now }
    ensures none { bytes.now ≡ [] → sink.new ≡ sink.old }
{
    if bytes.is_empty() {
        return Ok(());
    }
    sink.push(bytes)
}

/// Pushes a number in decimal digits.
pub fn push_number<O: Sink>(number: u64, sink: &mut O) -> Result<(), SinkError>
    ensures { Pushes O.held O.faults O.room sink.old sink.new result (decimal number) }
{
    let mut buffer = itoa::Buffer::new();
    push_bytes(buffer.format(number).as_bytes(), sink)
}

/// Pushes texts, one after the other.
pub fn render_all<T: Render, O: Sink>(texts: &[T], sink: &mut O) -> Result<(), SinkError>
    ensures { Pushes O.held O.faults O.room sink.old sink.new result (flat_map T.rendered texts.now) }
{
    for text in texts {
        if let Err(error) = text.render(sink) {
            return Err(error);
        }
    }
    Ok(())
}

/// Pushes the text, as a writer.
pub fn write_to<T: Render, O: Sink>(text: &T, sink: &mut O) -> Result<(), WriteError>
    ensures { Pushes O.held O.faults O.room sink.old sink.new (as_push result) (T.rendered text.now) }
{
    match text.render(sink) {
        Ok(()) => Ok(()),
        Err(SinkError::Failed) => Err(WriteError::WriteFault),
        Err(SinkError::Memory) => Err(WriteError::Memory),
    }
}
