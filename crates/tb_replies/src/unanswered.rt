//! Why a line has no whole reply.

ghost use Rattle.std.specs.Prelude.{◌≡◌};
ghost use Rattle.tb_replies.specs.declared.unanswered.Unanswered.TheVariants.{Memory};
ghost use Rattle.tb_replies.specs.Told.{of_lost, of_unwritten};

use crate::unwritten::Unwritten;
use std::alloc::AllocError;
use tb_team::Lost;

/// Why a line has no whole reply. The run is gone then.
#[derive(Clone, Copy, Debug, Drop, PartialEq, Eq)]
pub enum Unanswered {
    /// A growth was refused.
    Memory,
    /// A write failed.
    Write,
    /// What the workers did and what the journal says don't fit together.
    Journal,
}

impl From<AllocError> for Unanswered {
    ghost from_gives = { λ _ why. why ≡ Memory };

    fn from(_error: AllocError) -> Unanswered {
        Unanswered::Memory
    }
}

impl From<Unwritten> for Unanswered {
    ghost from_gives = { λ why gives. gives ≡ of_unwritten why };

    fn from(why: Unwritten) -> Unanswered {
        match why {
            Unwritten::Memory => Unanswered::Memory,
            Unwritten::Write => Unanswered::Write,
        }
    }
}

impl From<Lost> for Unanswered {
    ghost from_gives = { λ lost gives. gives ≡ of_lost lost };

    fn from(lost: Lost) -> Unanswered {
        match lost {
            Lost::Memory => Unanswered::Memory,
            _ => Unanswered::Journal,
        }
    }
}
