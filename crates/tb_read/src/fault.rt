//! Why a program text is refused.

ghost use Rattle.std.specs.Prelude.{◌≡◌};
ghost use Rattle.tb_read.specs.declared.fault.FaultKind.TheVariants.{Memory};
ghost use Rattle.tb_read.specs.Fault.{number_of};

use std::alloc::{AllocError, AllocFailed};
use thiserror::Error;

/// What is wrong with a line.
#[derive(Clone, Copy, Debug, PartialEq, Eq, Drop, Error)]
pub enum FaultKind {
    #[error("Memory")]
    Memory,
    #[error("NoCells")]
    NoCells,
    #[error("BadNumber")]
    BadNumber,
    #[error("CellRange")]
    CellRange,
    #[error("UnknownWord")]
    UnknownWord,
    #[error("UnknownBody")]
    UnknownBody,
    #[error("Arity")]
    Arity,
    #[error("Nesting")]
    Nesting,
    #[error("NoMain")]
    NoMain,
    #[error("Duplicate")]
    Duplicate,
    #[error("Register")]
    Register,
    #[error("TooLarge")]
    TooLarge,
    #[error("NotText")]
    NotText,
    #[error("DependType")]
    DependType,
}

impl FaultKind {
    /// The number by which the faults of a line are ordered.
    pub fn number(&self) -> u8
        ensures { result ≡ number_of self.now }
    {
        match self {
            FaultKind::Memory => 0,
            FaultKind::NoCells => 1,
            FaultKind::BadNumber => 2,
            FaultKind::CellRange => 3,
            FaultKind::UnknownWord => 4,
            FaultKind::UnknownBody => 5,
            FaultKind::Arity => 6,
            FaultKind::Nesting => 7,
            FaultKind::NoMain => 8,
            FaultKind::Duplicate => 9,
            FaultKind::Register => 10,
            FaultKind::TooLarge => 11,
            FaultKind::NotText => 12,
            FaultKind::DependType => 13,
        }
    }
}

impl From<AllocError> for FaultKind {
    ghost from_gives = { λ _ kind. kind ≡ Memory };

    fn from(_e: AllocError) -> FaultKind {
        FaultKind::Memory
    }
}

impl<T: Drop> From<AllocFailed<T>> for FaultKind {
    ghost from_gives = { λ _ kind. kind ≡ Memory };

    fn from(_e: AllocFailed<T>) -> FaultKind {
        FaultKind::Memory
    }
}

/// The first faulty line of a text, from 1, and its fault.
#[derive(Clone, Copy, Debug, PartialEq, Eq, Drop, Error)]
#[error("line {line}: {kind}")]
pub struct ReadFault {
    pub line: u32,
    pub kind: FaultKind,
}
