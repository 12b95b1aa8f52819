//! What is wrong with a line of a run text.

ghost use Rattle.std.specs.Prelude.{◌≡◌};
ghost use Rattle.tb_runs.specs.declared.fault.Unread.TheVariants.{Memory, Faulty};

use std::alloc::{AllocError, AllocFailed};
use thiserror::Error;

/// The fault of a line: that of its first wrong word from the left.
#[derive(Clone, Copy, Debug, PartialEq, Eq, Drop, Error)]
pub enum Fault {
    /// The first line with words doesn't begin with `cells`, or no line has words.
    #[error("NoCells")]
    NoCells,
    /// A word is no number, or a count of cells or of steps is below 0.
    #[error("BadNumber")]
    BadNumber,
    /// A number is no cell.
    #[error("CellRange")]
    CellRange,
    /// A word is none of those that can be there.
    #[error("UnknownWord")]
    UnknownWord,
    /// A word names no task, or no step.
    #[error("BadName")]
    BadName,
    /// A word is missing, or there is one too many.
    #[error("Arity")]
    Arity,
    /// A cell was given its first value by an earlier line.
    #[error("Duplicate")]
    Duplicate,
    /// A word is no register.
    #[error("Register")]
    Register,
    /// A word is no dependence type, or none that the line may name.
    #[error("DependType")]
    DependType,
    /// There are too many cells, arguments, items, or bytes of the line.
    #[error("TooLarge")]
    TooLarge,
    /// A byte before the comment is none of a text.
    #[error("NotText")]
    NotText,
}

/// Why a line isn't read.
#[derive(Clone, Copy, Debug, PartialEq, Eq, Drop)]
pub enum Unread {
    /// Memory was wanted for what the line says.
    Memory,
    Faulty(Fault),
}

impl From<AllocError> for Unread {
    ghost from_gives = { λ _ unread. unread ≡ Memory };

    fn from(_e: AllocError) -> Unread {
        Unread::Memory
    }
}

impl<T: Drop> From<AllocFailed<T>> for Unread {
    ghost from_gives = { λ _ unread. unread ≡ Memory };

    fn from(_e: AllocFailed<T>) -> Unread {
        Unread::Memory
    }
}

impl From<Fault> for Unread {
    ghost from_gives = { λ fault unread. unread ≡ Faulty fault };

    fn from(fault: Fault) -> Unread {
        Unread::Faulty(fault)
    }
}
