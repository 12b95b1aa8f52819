//! Why a task isn't claimed.

ghost use Rattle.std.specs.Prelude.{◌≡◌};
ghost use Rattle.tb_control.specs.Numbers.{claim_number};

/// Why a seat doesn't get the task that it asked for.
#[derive(Clone, Copy, Debug, Drop, PartialEq, Eq)]
pub enum ClaimRefusal {
    /// A growth was refused.
    Memory,
    /// The task isn't there: nothing has spawned it.
    NoSuchTask,
    /// The task has ended or faulted.
    Ended,
    /// Another seat claims the task, this one.
    Claimed { seat: u32 },
}

impl ClaimRefusal {
    /// The code by which replies name the refusal.
    pub fn number(&self) -> u8
        ensures { result ≡ claim_number self.now }
    {
        match self {
            ClaimRefusal::Memory => 0,
            ClaimRefusal::NoSuchTask => 1,
            ClaimRefusal::Ended => 2,
            ClaimRefusal::Claimed { .. } => 12,
        }
    }
}
