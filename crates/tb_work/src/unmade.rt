//! Why an entry isn't made that the run would take.

ghost use Rattle.std.specs.Prelude.{◌≡◌};
ghost use Rattle.tb_work.specs.declared.unmade.Unmade.TheVariants.{Memory};

use std::alloc::AllocError;

/// Why an entry isn't written to its slot.
#[derive(Clone, Copy, Debug, Drop, PartialEq, Eq)]
pub enum Unmade {
    /// A growth was refused.
    Memory,
    /// The slot's cell is written already, or the slot isn't above the last one of the seat.
    CellTaken,
}

impl From<AllocError> for Unmade {
    ghost from_gives = { λ _ unmade. unmade ≡ Memory };

    fn from(_error: AllocError) -> Unmade {
        Unmade::Memory
    }
}
