//! Steps and rollbacks of a core.

ghost use Rattle.std.specs.Prelude.{IsTrue};
ghost use Rattle.tb_core.specs.Outcomes.{Fits};

use crate::run::{step, task};
use std::alloc::AllocGlobal;
use std::mem;
use std::process::Abort;
use tb_core::{Core, StepRefusal};
use tb_model::Action;
use tb_plan::{Plan, plan};
use tb_read::{Program, read};
use tb_roll::{RollRefusal, roll};

/// A load, and a later store to its cell, of two tasks; the second one is generated with items.
const TEXT: &[u8] = b"cells 1\ncell 0 5\nbody main 0\ntask a\ntask b depend out 0\nend\n\
    body a 0\nload r0 0\nprint r0\nend\nbody b 0\nlet r0 1\nstore 0 9\nend\n";

/// The tasks that have executed these steps.
const STEPS: [&str; 8] = ["0", "0", "0", "0.1", "0.1", "0.2", "0.2", "0.2"];

/// Whether the plan is for the core's cells, starts a task exactly in front of its first step, and
/// closes no group.
fn fits(core: &Core, plan: &Plan) -> bool
    ensures { IsTrue result → Fits core.now.run plan.now }
{
    if plan.instr.cells as usize != core.cells().len() {
        return false;
    }
    if plan.action.is_start() != (plan.config.steps == 0) {
        return false;
    }
    !matches!(&plan.action, Action::Close)
}

fn planned(rt: &(impl Abort + AllocGlobal), program: &Program, core: &Core, name: &str) -> Plan {
    let task = task(rt, name);
    let found = again!(rt; core.config(&task), _, true);
    let config = found.expect(rt, name).expect(rt, name);
    let instr = program.instr(config.at).expect(rt, name);
    let made = again!(rt; plan(rt.alloc(), instr, &config), _, true);
    mem::forget(config);
    made.expect(rt, name)
}

/// Whether the step was executed; it wasn't for want of memory, and then nothing has changed.
fn is_taken(
    rt: &(impl Abort + AllocGlobal),
    program: &Program,
    core: &mut Core,
    name: &str,
) -> bool {
    let plan = planned(rt, program, core, name);
    assert!(rt; fits(core, &plan));
    let count = core.count();
    match core.step(plan) {
        Ok(_) => true,
        Err(StepRefusal::Memory) => {
            assert_eq!(rt; core.count(), count);
            false
        }
        Err(_) => panic!(rt; "{name} can step"),
    }
}

fn take(rt: &(impl Abort + AllocGlobal), program: &Program, core: &mut Core, name: &str) {
    if !is_taken(rt, program, core, name) {
        assert!(rt; is_taken(rt, program, core, name), "{name}");
    }
}

fn take_all(rt: &(impl Abort + AllocGlobal), program: &Program, core: &mut Core) {
    for name in STEPS {
        take(rt, program, core, name);
    }
}

/// Rolls the step back: so many steps go with it in all, and so many are left.
fn take_back(rt: &(impl Abort + AllocGlobal), core: &mut Core, id: &str, steps: usize, left: u32) {
    let id = step(rt, id);
    let count = core.count();
    let removed = again!(
        rt;
        roll(rt.alloc(), core, &id),
        RollRefusal::Memory,
        core.count() == count
    );
    match removed {
        Ok(removed) => {
            assert_eq!(rt; removed.len(), steps);
            mem::forget(removed);
        }
        Err(_) => panic!(rt; "a step that stands"),
    }
    assert_eq!(rt; core.count(), left);
}

#[test]
fn a_refused_growth_leaves_the_history(rt: HostRuntime) {
    let accepted = again!(&rt; read(rt.alloc(), TEXT), _, true);
    let program = accepted.expect(&rt, "an accepted program");
    let made =
        again!(&rt; Core::open(rt.alloc(), program.cells(), program.root_line(), 100), _, true);
    let mut core = made.expect(&rt, "memory is there again");
    take_all(&rt, &program, &mut core);
    take_back(&rt, &mut core, "0.1#2", 2, 6);
    take_back(&rt, &mut core, "0#3", 3, 3);
    mem::forget(core);
    mem::forget(program);
}
