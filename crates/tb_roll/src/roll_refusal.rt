//! Why a step isn't taken back with all that need it.

ghost use Rattle.std.specs.Prelude.{◌≡◌};
ghost use Rattle.tb_roll.specs.Refusals.{roll_number};

/// Why a rollback isn't done.
#[derive(Clone, Copy, Debug, Drop, PartialEq, Eq)]
pub enum RollRefusal {
    /// A growth was refused.
    Memory,
    /// The step isn't in the history.
    NoSuchStep,
    /// The journal has no slot for the rollback. Only who has a journal answers this.
    Full,
}

impl RollRefusal {
    /// The code by which replies name the refusal.
    pub fn number(&self) -> u8
        ensures { result ≡ roll_number self.now }
    {
        match self {
            RollRefusal::Memory => 0,
            RollRefusal::NoSuchStep => 1,
            RollRefusal::Full => 2,
        }
    }
}
