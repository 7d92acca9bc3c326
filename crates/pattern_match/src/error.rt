//! Why a text is not read as a pattern.
use std::alloc::{AllocError, AllocFailed};
use std::fmt;

/// Why a text is not read as a pattern.
#[derive(Clone, Copy, Debug, PartialEq, Eq, Drop)]
pub enum PatternError {
    /// The text is no pattern. `place` is the number of the first character, from 0, after which no pattern goes on so,
    /// or the number of characters where only the end is wrong.
    Refused { place: u64 },
    /// The text is a pattern of more than 65,536 positions.
    TooLarge,
    /// Memory was not to be had.
    Memory,
}

impl fmt::Display for PatternError {
    ghost use Rattle.std.specs.Prelude.{Some};
    ghost use Rattle.pattern_match.specs.ErrorText.{pattern_error_text};

    ghost output = { λ e. Some (pattern_error_text e) };

    fn fmt<W: fmt::Write>(&self, f: &mut fmt::Formatter<W>) -> fmt::Result {
        match self {
            PatternError::Refused { place } => write!(
                f,
                "no pattern goes on so at character {place}"
            ),
            PatternError::TooLarge => write!(f, "the pattern has more than 65536 positions"),
            PatternError::Memory => write!(f, "out of memory"),
        }
    }
}

impl std::error::Error for PatternError {}

impl From<AllocError> for PatternError {
    ghost use Rattle.std.specs.Prelude.{◌≡◌};
    ghost use Rattle.pattern_match.specs.declared.error.PatternError.TheVariants.{Memory};

    ghost from_gives = { λ _ e. e ≡ Memory };

    fn from(_: AllocError) -> PatternError {
        PatternError::Memory
    }
}
