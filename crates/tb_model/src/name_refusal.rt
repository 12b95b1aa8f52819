//! Why a text is refused as a name.

ghost use Rattle.std.specs.Prelude.{◌≡◌};
ghost use Rattle.tb_model.specs.Spelling.{name_refusal_number};
ghost use Rattle.tb_model.specs.declared.name_refusal.NameRefusal.TheVariants.{Memory};

use std::alloc::{AllocError, AllocFailed};

/// Why no name was read.
#[derive(Clone, Copy, Debug, Drop, PartialEq, Eq)]
pub enum NameRefusal {
    /// A growth was refused.
    Memory,
    /// The text spells none.
    BadName,
}

impl NameRefusal {
    /// The code under which the refusal is known.
    pub fn number(self) -> u8
        ensures { result ≡ name_refusal_number self }
    {
        match self {
            NameRefusal::Memory => 0,
            NameRefusal::BadName => 1,
        }
    }
}

impl From<AllocError> for NameRefusal {
    ghost from_gives = { λ _ refusal. refusal ≡ Memory };

    fn from(_error: AllocError) -> NameRefusal {
        NameRefusal::Memory
    }
}

impl<T: Drop> From<AllocFailed<T>> for NameRefusal {
    ghost from_gives = { λ _ refusal. refusal ≡ Memory };

    fn from(_error: AllocFailed<T>) -> NameRefusal {
        NameRefusal::Memory
    }
}
