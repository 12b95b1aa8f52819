//! Why a reply is not written whole.

ghost use Rattle.std.specs.Prelude.{◌≡◌};
ghost use Rattle.tb_replies.specs.declared.unwritten.Unwritten.TheVariants.{Memory, Write};

use std::alloc::AllocError;
use tb_lines::Failed;

/// Why a reply is not written whole.
#[derive(Clone, Copy, Debug, Drop, PartialEq, Eq)]
pub enum Unwritten {
    /// A growth was refused.
    Memory,
    /// A write failed.
    Write,
}

impl From<AllocError> for Unwritten {
    ghost from_gives = { λ _ why. why ≡ Memory };

    fn from(_error: AllocError) -> Unwritten {
        Unwritten::Memory
    }
}

impl From<Failed> for Unwritten {
    ghost from_gives = { λ _ why. why ≡ Write };

    fn from(_error: Failed) -> Unwritten {
        Unwritten::Write
    }
}
