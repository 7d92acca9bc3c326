//! Why a check of an instance does not end in `Ok`.
ghost use Rattle.std.specs.Prelude.{◌≡◌};
ghost use Rattle.transcoder.specs.CheckErrors.{check_error};
ghost use Rattle.transcoder.specs.declared.check_error.CheckError.TheVariants.{Memory};

use message_model::{Fault, InstanceError};
use std::alloc::{AllocError, AllocFailed};
use std::error::Error;
use std::fmt;

/// Why an instance is not accepted.
#[derive(Debug, Drop)]
pub enum CheckError {
    /// The bytes have this first fault.
    Refused(Fault),
    /// The source failed.
    ReadFault,
    /// Memory was wanted and not had.
    Memory,
}

impl fmt::Display for CheckError {
    ghost use Rattle.std.specs.Prelude.{Some};
    ghost use Rattle.transcoder.specs.ErrorTexts.{check_error_text};

    ghost output = { λ e. Some (check_error_text e) };

    fn fmt<W: fmt::Write>(&self, f: &mut fmt::Formatter<W>) -> fmt::Result {
        match self {
            CheckError::Refused(fault) => write!(f, "{fault}"),
            CheckError::ReadFault => write!(f, "the source failed"),
            CheckError::Memory => write!(f, "out of memory"),
        }
    }
}

impl Error for CheckError {}

impl From<InstanceError> for CheckError {
    ghost from_gives = { λ error told. told ≡ check_error error };

    fn from(error: InstanceError) -> CheckError {
        match error {
            InstanceError::Refused(fault) => CheckError::Refused(fault),
            InstanceError::Memory => CheckError::Memory,
        }
    }
}

impl From<AllocError> for CheckError {
    ghost from_gives = { λ _ error. error ≡ Memory };

    fn from(_error: AllocError) -> CheckError {
        CheckError::Memory
    }
}

impl<T: Drop> From<AllocFailed<T>> for CheckError {
    ghost from_gives = { λ _ error. error ≡ Memory };

    fn from(_error: AllocFailed<T>) -> CheckError {
        CheckError::Memory
    }
}
