//! Why a step isn't executed.

ghost use Rattle.std.specs.Prelude.{◌≡◌};
ghost use Rattle.tb_core.specs.Refusals.{step_number};

use crate::elsewhere::Elsewhere;
use tb_model::TaskName;

/// Why a task doesn't execute the step that was planned for it.
#[derive(Debug, Drop)]
pub enum StepRefusal {
    /// A growth was refused.
    Memory,
    /// The task isn't there: nothing has spawned it.
    NoSuchTask,
    /// The task has ended or faulted.
    Ended,
    /// The least task that is before it and hasn't ended.
    Waiting { pred: TaskName },
    /// The least task that excludes it, has started and hasn't ended.
    Excluded { by: TaskName },
    /// The least child that its `taskwait` waits for and that hasn't ended.
    Children { first: TaskName },
    /// The least member of its innermost open group that hasn't ended.
    Group { first: TaskName },
    /// The history has as many events as it may have.
    Full,
    /// The task is at another line now than the plan took for granted.
    Stale { now: Elsewhere },
    /// The undeferred child for which it waits hasn't ended.
    Undeferred { child: TaskName },
}

impl StepRefusal {
    /// The code by which replies name the refusal.
    pub fn number(&self) -> u8
        ensures { result ≡ step_number self.now }
    {
        match self {
            StepRefusal::Memory => 0,
            StepRefusal::NoSuchTask => 1,
            StepRefusal::Ended => 2,
            StepRefusal::Waiting { .. } => 3,
            StepRefusal::Excluded { .. } => 4,
            StepRefusal::Children { .. } => 5,
            StepRefusal::Group { .. } => 6,
            StepRefusal::Full => 7,
            StepRefusal::Stale { .. } => 8,
            StepRefusal::Undeferred { .. } => 13,
        }
    }
}
