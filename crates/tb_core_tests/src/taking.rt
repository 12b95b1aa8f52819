//! Cores in which the tasks of a program executed steps.

ghost use Rattle.std.specs.Prelude.{IsTrue};
ghost use Rattle.tb_core.specs.Outcomes.{Fits};

use std::alloc::AllocGlobal;
use std::mem;
use std::process::Abort;
use tb_core::Core;
use tb_model::{Action, TaskName};
use tb_plan::{Plan, plan};
use tb_read::{Program, read};

/// Whether the plan is for the core's cells, starts a task exactly in front of its first step, and
/// closes a group only where one is open.
pub fn fits(core: &Core, plan: &Plan) -> bool
    ensures { IsTrue result → Fits core.now.run plan.now }
{
    if plan.instr.cells as usize != core.cells().len() {
        return false;
    }
    if plan.action.is_start() != (plan.config.steps == 0) {
        return false;
    }
    !matches!(&plan.action, Action::Close) || core.groups(&plan.config.task) > 0
}

pub fn next_plan(
    rt: &(impl Abort + AllocGlobal),
    program: &Program,
    core: &Core,
    name: &str,
) -> Plan {
    let task = TaskName::parse(rt.alloc(), name.as_bytes()).expect(rt, name);
    let found = core.config(&task).expect(rt, "memory is there");
    mem::forget(task);
    let config = found.expect(rt, name);
    let instr = program.instr(config.at).expect(rt, name);
    let made = plan(rt.alloc(), instr, &config).expect(rt, "memory is there");
    mem::forget(config);
    made
}

fn take_step(rt: &(impl Abort + AllocGlobal), program: &Program, core: &mut Core, name: &str) {
    let plan = next_plan(rt, program, core, name);
    assert!(rt; fits(core, &plan));
    core.step(plan).expect(rt, name);
}

pub fn take_steps(
    rt: &(impl Abort + AllocGlobal),
    program: &Program,
    core: &mut Core,
    names: &[&str],
) {
    for name in names {
        take_step(rt, program, core, *name);
    }
}

pub fn opened(rt: &(impl Abort + AllocGlobal), program: &Program) -> Core {
    let core = Core::open(rt.alloc(), program.cells(), program.root_line(), 100);
    core.expect(rt, "memory is there")
}

/// The core in which the tasks executed their steps in this order.
pub fn taken(rt: &(impl Abort + AllocGlobal), text: &[u8], names: &[&str]) -> Core {
    let program = read(rt.alloc(), text).expect(rt, "an accepted program");
    let mut core = opened(rt, &program);
    take_steps(rt, &program, &mut core, names);
    mem::forget(program);
    core
}
