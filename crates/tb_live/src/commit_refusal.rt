//! Why a plan isn't committed.

ghost use Rattle.std.specs.Prelude.{◌≡◌};
ghost use Rattle.tb_live.specs.Numbers.{commit_number};

use tb_core::StepRefusal;

/// Why the step of a plan isn't executed for a seat. What was stays.
#[derive(Debug, Drop)]
pub enum CommitRefusal {
    /// 9: The run is paused.
    Paused,
    /// 10: The seat has no claim on the plan's task. It had one, and it was withdrawn, or it never had.
    Withdrawn,
    /// What blocks the task's step. A plan of another program is stale, as one of a situation in
    /// which the task isn't.
    Step { refusal: StepRefusal },
}

impl CommitRefusal {
    /// The code by which the refusal is known.
    pub fn number(&self) -> u8
        ensures { result ≡ commit_number self.now }
    {
        match self {
            CommitRefusal::Paused => 9,
            CommitRefusal::Withdrawn => 10,
            CommitRefusal::Step { refusal } => refusal.number(),
        }
    }
}
