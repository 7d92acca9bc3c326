//! How a run ends.
ghost use Rattle.std.specs.Prelude.{◌≡◌};
ghost use Rattle.repo_engine.specs.Exit.{exit_code_of};

use std::fmt;

/// How a run ends.
#[derive(Clone, Copy, Debug, PartialEq, Eq)]
pub enum Status {
    /// The command did what its words ask for.
    Done,
    /// The words have the form of no command.
    Words,
    /// The repository was refused.
    Repository,
    /// The external codes were refused.
    Codes,
    /// The message was refused.
    Message,
    /// The instance was refused.
    Instance,
    /// A source failed.
    ReadFault,
    /// A sink failed.
    WriteFault,
    /// Memory was wanted and not had.
    Memory,
}

/// The line that is noted, as far as the status tells it.
impl fmt::Display for Status {
    ghost use Rattle.std.specs.Prelude.{Some};
    ghost use Rattle.repo_engine.specs.ErrorTexts.{status_text};

    ghost output = { λ s. Some (status_text s) };

    fn fmt<W: fmt::Write>(&self, f: &mut fmt::Formatter<W>) -> fmt::Result {
        match self {
            Status::Done => write!(f, "done"),
            Status::Words => write!(f, "refused: words"),
            Status::Repository => write!(f, "refused: repository"),
            Status::Codes => write!(f, "refused: codes"),
            Status::Message => write!(f, "refused: message"),
            Status::Instance => write!(f, "refused: instance"),
            Status::ReadFault => write!(f, "failed: read"),
            Status::WriteFault => write!(f, "failed: write"),
            Status::Memory => write!(f, "failed: memory"),
        }
    }
}

impl Status {
    /// The exit status of the program, from 0 for `Done` to 8 for `Memory`.
    pub fn code(self) -> u8
        ensures { result ≡ exit_code_of self }
    {
        self as u8
    }
}
