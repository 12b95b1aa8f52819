//! A move of a run.

use tb_model::{StepId, TaskName};

/// What a run is asked for.
#[derive(Clone, Debug, Drop)]
pub enum Move {
    /// The next step of the task.
    Step(TaskName),
    /// A step that nothing needs is taken back.
    Undo(StepId),
    /// A step is taken back with all that need it.
    Roll(StepId),
}
