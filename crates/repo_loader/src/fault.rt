//! Why a repository file is refused, or not loaded.
ghost use Rattle.std.specs.Prelude.{◌≡◌};

use lexical_core::Rule;
use std::alloc::AllocError;
use std::error::Error;
use std::fmt;

/// The first fault of a repository file (profile): the number of the rule, from 1 to 6; of rule 1
/// the rule of markup that is broken; and the place in bytes from 0.
#[derive(Clone, Copy, Debug, PartialEq, Eq)]
pub struct LoadFault {
    pub rule: u8,
    pub markup: Option<Rule>,
    pub place: u64,
}

impl fmt::Display for LoadFault {
    ghost use Rattle.std.specs.Prelude.{Some};
    ghost use Rattle.repo_loader.specs.ErrorTexts.{fault_text};

    ghost output = { λ f. Some (fault_text f) };

    fn fmt<W: fmt::Write>(&self, f: &mut fmt::Formatter<W>) -> fmt::Result {
        match self.markup {
            Some(rule) => write!(f, "L{} {} at {}", self.rule, rule.name(), self.place),
            None => write!(f, "L{} at {}", self.rule, self.place),
        }
    }
}

impl Error for LoadFault {}

/// Why a repository is not loaded.
#[derive(Clone, Copy, Debug, PartialEq, Eq)]
pub enum LoadError {
    /// The bytes have this fault.
    Refused(LoadFault),
    /// The source failed.
    ReadFault,
    /// Memory was wanted and not had.
    Memory,
}

impl fmt::Display for LoadError {
    ghost use Rattle.std.specs.Prelude.{Some};
    ghost use Rattle.repo_loader.specs.ErrorTexts.{load_error_text};

    ghost output = { λ e. Some (load_error_text e) };

    fn fmt<W: fmt::Write>(&self, f: &mut fmt::Formatter<W>) -> fmt::Result {
        match self {
            LoadError::Refused(fault) => write!(f, "{fault}"),
            LoadError::ReadFault => write!(f, "the source failed"),
            LoadError::Memory => write!(f, "out of memory"),
        }
    }
}

impl Error for LoadError {}

impl From<AllocError> for LoadError {
    ghost use Rattle.repo_loader.specs.declared.fault.LoadError.TheVariants.{Memory};

    ghost from_gives = { λ _ e. e ≡ Memory };

    fn from(_error: AllocError) -> LoadError {
        LoadError::Memory
    }
}
