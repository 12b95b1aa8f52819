//! Why an event may not follow.

ghost use Rattle.std.specs.Prelude.{◌≡◌};
ghost use Rattle.tb_verdict.specs.Refusals.{number_of};

use tb_model::TaskName;

/// Why an event of a recorded run may not follow those in front of it.
#[derive(Debug, Drop)]
pub enum Refusal {
    /// Nothing generated the task.
    NoSuchTask,
    /// The task has ended or faulted.
    Ended,
    /// The least task that is before it and hasn't ended.
    Waiting { pred: TaskName },
    /// The least task that excludes it, has started and hasn't ended.
    Excluded { by: TaskName },
    /// The least child that its `taskwait` waits for and that hasn't ended.
    Children { first: TaskName },
    /// The least member of its innermost open group that hasn't ended.
    Group { first: TaskName },
    /// The undeferred child for which it waits hasn't ended.
    Undeferred { child: TaskName },
    /// The task hasn't started.
    NotStarted,
    /// The task has started.
    Started,
    /// The cell has this value.
    Reads { number: i64 },
    /// The next child has this name.
    Child { due: TaskName },
    /// The task has no open group.
    NoGroup,
    /// The next step has this ordinal.
    Step { due: u64 },
}

impl Refusal {
    /// The code by which reports name the refusal.
    pub fn number(&self) -> u8
        ensures { result ≡ number_of self.now }
    {
        match self {
            Refusal::NoSuchTask => 1,
            Refusal::Ended => 2,
            Refusal::Waiting { .. } => 3,
            Refusal::Excluded { .. } => 4,
            Refusal::Children { .. } => 5,
            Refusal::Group { .. } => 6,
            Refusal::Undeferred { .. } => 13,
            Refusal::NotStarted => 14,
            Refusal::Started => 15,
            Refusal::Reads { .. } => 16,
            Refusal::Child { .. } => 17,
            Refusal::NoGroup => 18,
            Refusal::Step { .. } => 19,
        }
    }
}
