//! Why a run that was lent to workers doesn't come back.

ghost use Rattle.std.specs.Prelude.{◌≡◌};
ghost use Rattle.tb_team.specs.declared.lost.Lost.TheVariants.{Memory};

use std::alloc::AllocError;

/// Why a run that was lent to workers is lost. All but want of memory say that what the workers did and what
/// the journal says don't fit together.
#[derive(Clone, Copy, Debug, Drop, PartialEq, Eq)]
pub enum Lost {
    /// A growth was refused.
    Memory,
    /// An entry of the journal is of none of the run's seats.
    Unseated,
    /// The cell of a slot that is there was written already.
    Written,
    /// A worker met a cell that was taken.
    Taken,
    /// A receipt's slot isn't in the journal.
    Gap,
    /// The new entries aren't steps of the workers, or run on past one that met a breakpoint.
    Course,
    /// There are more new entries than were asked for.
    Many,
    /// Nothing stops the workers after the new entries.
    Unstopped,
}

impl From<AllocError> for Lost {
    ghost from_gives = { λ _ lost. lost ≡ Memory };

    fn from(_error: AllocError) -> Lost {
        Lost::Memory
    }
}
