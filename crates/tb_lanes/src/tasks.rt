//! The steps of a history by their tasks.

ghost use Rattle.std.specs.Prelude.{◌≡◌, ◌≢◌, ◌<◌, ◌⊎◌, ℕ, suc, length, IfSome, IfNone};
ghost use Rattle.tb_lanes.specs.Clocks as is;
ghost use Rattle.tb_lanes.specs.Clocks.{IsShaped, number};

/// The steps of a history by their tasks. Where another step may be, its index is given as one
/// more, and 0 for none.
#[derive(Drop)]
pub struct Tasks {
    /// For each step the newest in front of it that is of its task, or else generates it.
    pub previous: Vec<usize>,
    /// The id of each step's task: each task has one of its own.
    pub numbers: Vec<usize>,
    /// For each step the one that generates its task.
    pub origins: Vec<usize>,
}

/// The step in front of this one that is of its task, the newest.
pub fn step_before(tasks: &Tasks, at: usize) -> Option<usize>
    requires shaped { IsShaped tasks.now }
    requires at { at < length tasks.now.numbers.items }
    ensures own { IfSome result (λ b. (is.previous tasks.now at ≡ suc b)
        × (number tasks.now b ≡ number tasks.now at) × (b < at)) }
    ensures none { IfNone result ((is.previous tasks.now at ≡ 0)
        ⊎ ((b : ℕ) × (is.previous tasks.now at ≡ suc b) × (number tasks.now b ≢ number tasks.now at))) }
{
    let previous = tasks.previous[at];
    if previous > 0 && tasks.numbers[previous - 1] == tasks.numbers[at] {
        Some(previous - 1)
    } else {
        None
    }
}
