//! What a source, a sink and a writer answer when they cannot go on.
ghost use Rattle.std.specs.Prelude.{◌≡◌, Some, codes};

use std::alloc::AllocError;
use std::error::Error;
use std::fmt;

/// A source could not be read. Its count of faults says so too.
#[derive(Clone, Copy, Debug, PartialEq, Eq)]
pub struct Failed;

/// Why a sink did not take all of the bytes.
#[derive(Clone, Copy, Debug, PartialEq, Eq)]
pub enum SinkError {
    /// The place that the bytes go to failed.
    Failed,
    /// There is no memory for the bytes.
    Memory,
}

/// Why a writer did not bring its text into a sink.
#[derive(Clone, Copy, Debug, PartialEq, Eq)]
pub enum WriteError {
    /// The sink failed.
    WriteFault,
    /// The sink found no memory for the text.
    Memory,
}

impl fmt::Display for Failed {
    ghost output = { λ _. Some (codes "the source failed") };

    fn fmt<W: fmt::Write>(&self, f: &mut fmt::Formatter<W>) -> fmt::Result {
        f.write_str("the source failed")
    }
}

impl fmt::Display for SinkError {
    ghost use Rattle.std.specs.Prelude.{Some};
    ghost use Rattle.outside.specs.Errors.{sink_error_text};

    ghost output = { λ e. Some (sink_error_text e) };

    fn fmt<W: fmt::Write>(&self, f: &mut fmt::Formatter<W>) -> fmt::Result {
        f.write_str(match self {
            SinkError::Failed => "the sink failed",
            SinkError::Memory => "there is no memory for the sink's bytes",
        })
    }
}

impl fmt::Display for WriteError {
    ghost use Rattle.std.specs.Prelude.{Some};
    ghost use Rattle.outside.specs.Errors.{write_error_text};

    ghost output = { λ e. Some (write_error_text e) };

    fn fmt<W: fmt::Write>(&self, f: &mut fmt::Formatter<W>) -> fmt::Result {
        f.write_str(match self {
            WriteError::WriteFault => "the sink failed",
            WriteError::Memory => "there is no memory for the text",
        })
    }
}

impl Error for Failed {}

impl Error for SinkError {}

impl Error for WriteError {}

impl From<AllocError> for SinkError {
    ghost use Rattle.outside.specs.declared.errors.SinkError.TheVariants.{Memory};

    ghost from_gives = { λ _ e. e ≡ Memory };

    fn from(_error: AllocError) -> SinkError {
        SinkError::Memory
    }
}

impl From<SinkError> for WriteError {
    ghost use Rattle.outside.specs.Errors.{write_error};

    ghost from_gives = { λ s e. e ≡ write_error s };

    fn from(error: SinkError) -> WriteError {
        match error {
            SinkError::Failed => WriteError::WriteFault,
            SinkError::Memory => WriteError::Memory,
        }
    }
}
