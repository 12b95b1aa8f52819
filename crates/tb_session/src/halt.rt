//! Why a session ends before its input.

ghost use Rattle.std.specs.Prelude.{◌≡◌};
ghost use Rattle.tb_session.specs.Halt.{status_of};

use tb_read::ReadFault;
use thiserror::Error;

/// Why a session ends before its input.
#[derive(Clone, Copy, Debug, PartialEq, Eq, Drop, Error)]
pub enum Halt {
    /// The program is refused.
    #[error(transparent)]
    Refused(#[from] ReadFault),
    #[error("read")]
    Read,
    #[error("write")]
    Write,
    #[error("memory")]
    Memory,
    /// What the workers did and what the journal says don't fit together.
    #[error("journal")]
    Journal,
}

impl Halt {
    /// The exit status of the program.
    pub fn status(&self) -> u8
        ensures { result ≡ status_of self.now }
    {
        match self {
            Halt::Refused(_) => 1,
            _ => 3,
        }
    }
}
