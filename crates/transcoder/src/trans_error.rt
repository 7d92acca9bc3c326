//! Why a transcoding does not end in `Ok`.
ghost use Rattle.std.specs.Prelude.{◌≡◌};
ghost use Rattle.transcoder.specs.TransErrors.{trans_error, written_error};

use crate::check_error::CheckError;
use message_model::Fault;
use outside::WriteError;
use std::error::Error;
use std::fmt;

/// Why an instance is not transcoded.
#[derive(Debug, Drop)]
pub enum TransError {
    /// The bytes have this first fault. Nothing was pushed.
    Refused(Fault),
    /// The source failed. Nothing was pushed.
    ReadFault,
    /// The sink failed.
    WriteFault,
    /// Memory was wanted and not had.
    Memory,
}

impl fmt::Display for TransError {
    ghost use Rattle.std.specs.Prelude.{Some};
    ghost use Rattle.transcoder.specs.ErrorTexts.{trans_error_text};

    ghost output = { λ e. Some (trans_error_text e) };

    fn fmt<W: fmt::Write>(&self, f: &mut fmt::Formatter<W>) -> fmt::Result {
        match self {
            TransError::Refused(fault) => write!(f, "{fault}"),
            TransError::ReadFault => write!(f, "the source failed"),
            TransError::WriteFault => write!(f, "the sink failed"),
            TransError::Memory => write!(f, "out of memory"),
        }
    }
}

impl Error for TransError {}

impl From<CheckError> for TransError {
    ghost from_gives = { λ error told. told ≡ trans_error error };

    fn from(error: CheckError) -> TransError {
        match error {
            CheckError::Refused(fault) => TransError::Refused(fault),
            CheckError::ReadFault => TransError::ReadFault,
            CheckError::Memory => TransError::Memory,
        }
    }
}

impl From<WriteError> for TransError {
    ghost from_gives = { λ error told. told ≡ written_error error };

    fn from(error: WriteError) -> TransError {
        match error {
            WriteError::WriteFault => TransError::WriteFault,
            WriteError::Memory => TransError::Memory,
        }
    }
}
