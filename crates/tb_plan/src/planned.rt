//! One statement, evaluated for one task.

ghost use Rattle.std.specs.Prelude.{◌≡◌, IsTrue};
ghost use Rattle.tb_plan.specs.Plans.{IsEvaluation, names_allowed, line_behind};

use crate::config::Config;
use crate::evaluation::line_behind;
use crate::instr::Instr;
use tb_model::Action;

/// What a task does next: its instruction, its situation, and the action that the statement makes
/// of the two. A load has the value 0, and a spawned task is the first child, until the step is
/// executed.
#[derive(Debug, Drop)]
pub struct Plan {
    pub instr: Instr,
    pub config: Config,
    pub action: Action,
    pub ghost at_one_line: { instr.line ≡ config.at },
    pub ghost evaluated: { IsEvaluation instr config action },
    pub ghost allowed: { IsTrue (names_allowed instr.cells action) },
}

impl Plan {
    /// The line at which the task is after the action. One that is over retains its line.
    pub fn to(&self) -> u32
        ensures { result ≡ line_behind self.now.instr self.now.config self.now.action }
    {
        line_behind(&self.instr, self.config.at, &self.action)
    }
}
