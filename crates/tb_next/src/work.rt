//! What a seat works on.

use tb_plan::{Config, Instr, Strip};

/// The statement that a task takes next, the situation in which it does, and the private statements
/// around it.
#[derive(Debug, Drop)]
pub struct Work {
    pub instr: Instr,
    pub config: Config,
    pub strip: Strip,
}
