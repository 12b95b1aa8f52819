//! What a task does next.

use tb_model::Action;

/// The action that a task takes next, the line at which the task is and the one at which the action
/// leaves it, and how many steps the task has executed. A load has the value 0, and a spawned task
/// is the first child, until the step is executed.
#[derive(Drop)]
pub struct Coming {
    pub action: Action,
    pub at: u32,
    pub to: u32,
    pub steps: u32,
}
