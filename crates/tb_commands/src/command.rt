//! The commands of a session.

use crate::target::Target;
use crate::word::Word;
use tb_live::Break;
use tb_model::{StepId, TaskName};
use tb_view::View;

/// The first word of a command, but for `break` and `go`.
#[derive(Clone, Copy, Debug, PartialEq, Eq)]
pub enum Verb {
    Step,
    Undo,
    Roll,
    RollTask,
    RollCell,
    RollPrint,
    Run,
    Clear,
    Tasks,
    Task,
    Cells,
    Out,
    Ready,
    Waits,
    Deps,
    Hist,
    Why,
    Causes,
    Who,
    Races,
    Edges,
    Breaks,
}

/// A command, with what its words name. `go` isn't among them: its workers take the run over.
#[derive(Debug, Drop)]
pub enum Command {
    /// One step of a task.
    Step { task: TaskName },
    /// Takes back a step that nothing needs.
    Undo { id: StepId },
    /// Takes back a step with all that need it.
    Roll { target: Target },
    /// Steps, each of the least task that can step, and no more than so many.
    Run { most: u32 },
    /// Makes a breakpoint.
    Break { at: Break },
    /// Makes a breakpoint at the starts of tasks of the body with this name.
    BreakBody { name: Word },
    /// Takes a breakpoint away.
    Clear { number: u32 },
    /// Shows something of the run.
    Show { view: View },
}
