//! Whether a plan that was made at some time is one of the program.

ghost use Rattle.std.specs.Prelude.{◌≡◌, ◌↔◌, IfSome, IfNone, IsTrue};
ghost use Rattle.tb_model.specs.Facts.{is_spawned};
ghost use Rattle.tb_core.specs.Seen.{history};
ghost use Rattle.tb_next.specs.Plans.{IsForeign, IsNative, IsOfProgram, IsStaleAnswer};

use crate::same_instr::is_same_instr;
use tb_core::{Core, StepRefusal};
use tb_model::TaskName;
use tb_plan::{Instr, Plan};
use tb_read::Program;

/// Whether the instruction is the program's at its line.
fn is_of_program(program: &Program, instr: &Instr) -> bool
    ensures { IsTrue result ↔ IsOfProgram program.now instr.now }
{
    match program.instr(instr.line) {
        Some(found) => is_same_instr(found, instr),
        None => false,
    }
}

/// Where the task is now, which the plan doesn't say.
fn stale(core: &Core, task: &TaskName) -> StepRefusal
    requires there { IsTrue (is_spawned (history core.now.run) task.now) }
    ensures { IsStaleAnswer core.now.run task.now result }
{
    match core.elsewhere(task) {
        Ok(Some(now)) => StepRefusal::Stale { now },
        Ok(None) => unreachable!(),
        Err(_) => StepRefusal::Memory,
    }
}

/// Why a plan isn't one of the program for a task that is there and goes on.
pub fn foreign(program: &Program, core: &Core, plan: &Plan) -> Option<StepRefusal>
    ensures some { IfSome result (IsForeign program.now core.now.run plan.now) }
    ensures none { IfNone result (IsNative program.now core.now.run plan.now) }
{
    let task = &plan.config.task;
    if !core.is_there(task) {
        return Some(StepRefusal::NoSuchTask);
    }
    if core.has_ended(task) {
        return Some(StepRefusal::Ended);
    }
    if !is_of_program(program, &plan.instr) {
        return Some(stale(core, task));
    }
    None
}
