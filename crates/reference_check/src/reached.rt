//! What a message reaches, and why one is refused.
ghost use Rattle.std.specs.Prelude.{◌≡◌};

use lexical_core::{Items, Text};
use std::alloc::AllocError;
use std::error::Error;
use std::fmt;

/// Places of objects, from 0 in file order.
pub type Places = Items<usize>;

/// A message and what it reaches.
#[derive(Debug, Drop)]
pub struct Reach {
    /// The place of the message.
    pub message: usize,
    /// The places of the objects that it reaches, in file order.
    pub objects: Places,
}

/// Why a message is refused.
#[derive(Debug, Drop)]
pub enum ReadyError {
    /// A rule of this number is broken, by this object, or by the message of this identifier.
    Broken { rule: u8, object: Text },
    /// Memory was wanted and not had.
    Memory,
}

impl fmt::Display for ReadyError {
    ghost use Rattle.std.specs.Prelude.{Some};
    ghost use Rattle.reference_check.specs.ReadyErrors.{ready_error_text};

    ghost output = { λ e. Some (ready_error_text e) };

    fn fmt<W: fmt::Write>(&self, f: &mut fmt::Formatter<W>) -> fmt::Result {
        match self {
            ReadyError::Broken { rule, object: _ } => write!(f, "the message breaks rule M{rule}"),
            ReadyError::Memory => write!(f, "there is no memory for what the message reaches"),
        }
    }
}

impl Error for ReadyError {}

impl From<AllocError> for ReadyError {
    ghost use Rattle.reference_check.specs.declared.reached.ReadyError.TheVariants.{Memory};

    ghost from_gives = { λ _ e. e ≡ Memory };

    fn from(_error: AllocError) -> ReadyError {
        ReadyError::Memory
    }
}
