//! Why codes are refused.
ghost use Rattle.std.specs.Prelude.{◌≡◌};
ghost use Rattle.code_sets.specs.declared.errors.CodesError.TheVariants.{Memory};

use std::alloc::{AllocError, AllocFailed};
use std::error::Error;
use std::fmt;

/// Why codes are refused.
#[derive(Clone, Copy, Debug, PartialEq, Eq)]
pub enum CodesError {
    /// They break the rule of this number in the record of that number, counted from 1:
    ///
    /// 1. it has not two fields;
    /// 2. a field is not UTF-8;
    /// 3. its code is empty, or holds a character that is none of XML (XML 1.0 §2.2);
    /// 4. it names a code set that has codes of its own;
    /// 5. there are more than 2^28 bytes, which is of no record: its number is 0.
    Refused { rule: u8, number: u64 },
    /// The source failed.
    ReadFault,
    /// Memory was wanted and not had.
    Memory,
}

impl fmt::Display for CodesError {
    ghost use Rattle.std.specs.Prelude.{Some};
    ghost use Rattle.code_sets.specs.ErrorTexts.{codes_error_text};

    ghost output = { λ e. Some (codes_error_text e) };

    fn fmt<W: fmt::Write>(&self, f: &mut fmt::Formatter<W>) -> fmt::Result {
        match self {
            CodesError::Refused { rule, number } => write!(f, "C{rule} at record {number}"),
            CodesError::ReadFault => write!(f, "the source failed"),
            CodesError::Memory => write!(f, "out of memory"),
        }
    }
}

impl Error for CodesError {}

impl From<AllocError> for CodesError {
    ghost from_gives = { λ _ e. e ≡ Memory };

    fn from(_error: AllocError) -> CodesError {
        CodesError::Memory
    }
}

impl<T: Drop> From<AllocFailed<T>> for CodesError {
    ghost from_gives = { λ _ e. e ≡ Memory };

    fn from(_error: AllocFailed<T>) -> CodesError {
        CodesError::Memory
    }
}
