//! What a breakpoint waits for.

ghost use Rattle.std.specs.Prelude.{◌≡◌};
ghost use Rattle.tb_model.specs.Facts;
ghost use Rattle.tb_control.specs.Breaks.{meets};

use tb_model::{Action, TaskName};

/// A kind of step.
#[derive(Clone, Debug, Drop)]
pub enum Break {
    /// Any step of the task.
    Task(TaskName),
    /// Any load or store of the cell.
    Cell(u32),
    /// The start of a task of the body that this line names.
    Body(u32),
    /// Any print.
    Print,
    /// Any fault.
    Fault,
}

impl Break {
    /// Whether the step, which the task took with this action, is of this kind. The task was at
    /// this line.
    pub fn meets(&self, line: u32, task: &TaskName, action: &Action) -> bool
        ensures { result ≡ meets line (record { task = task.now; action = action.now }) self.now }
    {
        match self {
            Break::Task(watched) => *task == *watched,
            Break::Cell(cell) => touches(action, *cell),
            Break::Body(body) => action.is_start() && line == *body,
            Break::Print => action.is_print(),
            Break::Fault => matches!(action, Action::Fault),
        }
    }
}

fn touches(action: &Action, cell: u32) -> bool
    ensures { result ≡ Facts.touches cell action.now }
{
    match action {
        Action::Load { cell: loaded, .. } => cell == *loaded,
        Action::Store { cell: stored, .. } => cell == *stored,
        _ => false,
    }
}
