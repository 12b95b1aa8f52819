//! Why a run isn't taken in.

ghost use Rattle.std.specs.Prelude.{◌≡◌};
ghost use Rattle.tb_work.specs.declared.adopt_refusal.AdoptRefusal.TheVariants.{Memory};
ghost use Rattle.tb_work.specs.Numbers.{adopt_number, not_adopted};

use crate::unmade::Unmade;
use std::alloc::AllocError;

/// Why no team shares the run.
#[derive(Clone, Copy, Debug, Drop, PartialEq, Eq)]
pub enum AdoptRefusal {
    /// 0: A growth was refused.
    Memory,
    /// 11: The cell of a slot that is there is written already.
    CellTaken,
}

impl AdoptRefusal {
    /// The code by which the refusal is known.
    pub fn number(&self) -> u8
        ensures { result ≡ adopt_number self.now }
    {
        match self {
            AdoptRefusal::Memory => 0,
            AdoptRefusal::CellTaken => 11,
        }
    }
}

impl From<AllocError> for AdoptRefusal {
    ghost from_gives = { λ _ refusal. refusal ≡ Memory };

    fn from(_error: AllocError) -> AdoptRefusal {
        AdoptRefusal::Memory
    }
}

impl From<Unmade> for AdoptRefusal {
    ghost from_gives = { λ unmade refusal. refusal ≡ not_adopted unmade };

    fn from(unmade: Unmade) -> AdoptRefusal {
        match unmade {
            Unmade::Memory => AdoptRefusal::Memory,
            Unmade::CellTaken => AdoptRefusal::CellTaken,
        }
    }
}
