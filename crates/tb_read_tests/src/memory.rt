//! What is refused for memory.

use std::mem;
use std::process::Abort;
use std::test::Fail;
use tb_model::{Action, NameRefusal, TaskName};
use tb_plan::{Config, Plan, plan, plan_burst};
use tb_read::{FaultKind, Program, ReadFault, read, strip_around};

const TEXT: &[u8] =
    b"cells 2\ncell 1 5\nbody main 0\nif r0 == 0\ntask b r0 7 depend in r0 depend out all if 1 < 2\nelse\ntaskwait\nend\nend\nbody b 2\nend\n";

/// 19 private statements where `r0` is 0, one after another, and a print.
const LOOP: &[u8] = b"cells 0\nbody main 0\nwhile r0 < 9\nlet r0 r0 + 1\nend\nprint r0\nend\n";

/// The answer, or at a refusal for memory that of the same call made again.
fn read_twice(rt: &(impl Abort + AllocGlobal), text: &[u8]) -> Result<Program, ReadFault> {
    match read(rt.alloc(), text) {
        Err(
            ReadFault {
                kind: FaultKind::Memory,
                ..
            },
        ) => read(rt.alloc(), text),
        answer => answer,
    }
}

#[test]
fn a_refused_growth_of_read_leaves_its_answer(rt: HostRuntime) -> Result<(), Fail> {
    let program = read_twice(&rt, TEXT)?;
    let outcome = expect_program(&rt, &program);
    mem::forget(program);
    expect_arity(&rt);
    outcome
}

fn expect_program(rt: &impl Abort, program: &Program) -> Result<(), Fail> {
    assert_eq!(rt; program.cells(), [0, 5].as_slice());
    assert_eq!(rt; program.root_line(), 3);
    assert_eq!(rt; program.body_name(10), Some("b"));
    let test = program.instr(4).ok_or("no test")?;
    assert_eq!(rt; test.next, 5);
    assert_eq!(rt; test.otherwise, 7);
    Ok(())
}

fn expect_arity(rt: &(impl Abort + AllocGlobal)) {
    match read_twice(rt, b"cells 1\nbody main 0\nprint 1 2 3 4 5\nend\n") {
        Ok(program) => {
            mem::forget(program);
            panic!(rt; "a faulty text")
        }
        Err(fault) => {
            assert_eq!(rt; fault.line, 3);
            assert_eq!(rt; fault.kind, FaultKind::Arity);
        }
    }
}

#[test]
fn a_refused_growth_of_plan_leaves_its_answer(rt: HostRuntime) -> Result<(), Fail> {
    let program = read_twice(&rt, TEXT)?;
    let planned = planned_twice(&rt, &program);
    mem::forget(program);
    let planned = planned?;
    assert_eq!(rt; planned.to(), 9);
    let outcome = expect_spawn(&rt, &planned.action);
    mem::forget(planned);
    outcome
}

/// The plan of the `task` line.
fn planned_twice(rt: &impl AllocGlobal, program: &Program) -> Result<Plan, Fail> {
    let instr = program.instr(5).ok_or("no task")?;
    let config = Config {
        task: TaskName::root(rt.alloc()),
        steps: 2,
        at: instr.line,
        regs: registers(),
    };
    let made = match plan(rt.alloc(), instr, &config) {
        Ok(planned) => Ok(planned),
        Err(_) => plan(rt.alloc(), instr, &config),
    };
    mem::forget(config);
    Ok(made?)
}

/// The first register has 1.
fn registers() -> [i64; 16] {
    let mut regs = [0; 16];
    regs[0] = 1;
    regs
}

fn expect_spawn(rt: &impl Abort, action: &Action) -> Result<(), Fail> {
    let Action::Spawn(spawned) = action else {
        return Err(Fail::from("no spawn"));
    };
    let spawn = spawned.get();
    assert_eq!(rt; spawn.body, 10);
    assert!(rt; spawn.deferred);
    assert_eq!(rt; spawn.args.as_slice(), [1, 7].as_slice());
    assert_eq!(rt; spawn.items.as_slice().len(), 2);
    Ok(())
}

/// A name that takes memory.
fn deep_name(rt: &(impl Abort + AllocGlobal)) -> Result<TaskName, NameRefusal> {
    let name = b"0.1.1.1.1.1.1.1";
    match TaskName::parse(rt.alloc(), name) {
        Err(NameRefusal::Memory) => TaskName::parse(rt.alloc(), name),
        answer => answer,
    }
}

#[test]
fn a_refused_growth_of_plan_burst_leaves_its_answer(rt: HostRuntime) -> Result<(), Fail> {
    let program = read_twice(&rt, LOOP)?;
    let instr = program.instr(3).ok_or("no loop")?;
    let strip = strip_around(&program, 3);
    let config = Config {
        task: deep_name(&rt)?,
        steps: 2,
        at: 3,
        regs: [0; 16],
    };
    let plans = match plan_burst(rt.alloc(), instr, &strip, &config) {
        Ok(plans) => plans,
        Err(_) => plan_burst(rt.alloc(), instr, &strip, &config)?,
    };
    let ends = expect_burst(&rt, plans.as_slice());
    mem::forget(plans);
    ends
}

fn expect_burst(rt: &impl Abort, plans: &[Plan]) -> Result<(), Fail> {
    assert_eq!(rt; plans.len(), 19);
    let last = plans.last().ok_or("no plan")?;
    assert_eq!(rt; last.config.regs[0], 9);
    assert_eq!(rt; last.config.steps, 20);
    assert_eq!(rt; last.to(), 6);
    Ok(())
}
