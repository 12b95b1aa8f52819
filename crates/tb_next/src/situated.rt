//! What a task is about to do.

use tb_plan::{Config, Instr};

/// The statement that a task executes next, and the situation in which it does.
#[derive(Debug, Drop)]
pub struct Situated {
    pub instr: Instr,
    pub config: Config,
}
