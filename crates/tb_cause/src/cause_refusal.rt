//! Why needs aren't reported.

ghost use Rattle.std.specs.Prelude.{◌≡◌};
ghost use Rattle.tb_cause.specs.Refusals.{cause_number};

/// Why needs aren't reported.
#[derive(Clone, Copy, Debug, Drop, PartialEq, Eq)]
pub enum CauseRefusal {
    /// A growth was refused.
    Memory,
    /// The step isn't in the history.
    NoSuchStep,
}

impl CauseRefusal {
    /// The code by which replies name the refusal.
    pub fn number(&self) -> u8
        ensures { result ≡ cause_number self.now }
    {
        match self {
            CauseRefusal::Memory => 0,
            CauseRefusal::NoSuchStep => 1,
        }
    }
}
