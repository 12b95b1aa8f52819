//! What a session can show.

use tb_model::{StepId, TaskName};

/// What is shown of a run.
#[derive(Debug, Drop)]
pub enum View {
    /// The cells that aren't 0.
    Cells,
    /// What was printed.
    Out,
    /// All steps.
    Hist,
    /// The steps that a step needs.
    Why { id: StepId },
    /// The immediate needs of a step, each with its kind.
    Causes { id: StepId },
    /// The steps that need a step.
    Who { id: StepId },
    /// For each step that races with earlier ones the race that is named.
    Races,
    /// The immediate needs of all steps, each with its kind.
    Edges,
    /// All tasks, and how far each has come.
    Tasks,
    /// A task: its body, its position, its registers, its open groups and its items.
    Task { task: TaskName },
    /// The tasks that can step.
    Ready,
    /// The tasks that can't step and haven't ended, and what each waits for.
    Waits,
    /// The siblings before a task, and those that aren't to run at its time.
    Deps { task: TaskName },
    /// The breakpoints.
    Breaks,
}
