//! Where a task is.

use tb_model::TaskName;

/// A task's own situation: the steps that it has taken, the line at which it is, its registers. A
/// task that hasn't started is at its `body` line.
#[derive(Clone, Debug, Drop)]
pub struct Config {
    pub task: TaskName,
    pub steps: u32,
    pub at: u32,
    pub regs: [i64; 16],
}
