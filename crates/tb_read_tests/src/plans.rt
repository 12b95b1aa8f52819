//! One statement of each kind, evaluated.

use std::mem;
use std::process::Abort;
use std::test::Fail;
use tb_model::{Action, Spawn, TaskName};
use tb_plan::{Config, Plan, plan};
use tb_read::{Program, read};

/// The plan of a line of a program with two cells and this statement on line 3, for task `0`.
fn planned(rt: &(impl Abort + AllocGlobal), statement: &str, line: u32) -> Result<Plan, Fail> {
    let mut text = String::new(rt.alloc());
    write!(
        text,
        "cells 2\nbody main 0\n{statement}\nend\nbody b 2\nend\n"
    )?;
    let program = read(rt.alloc(), text.as_bytes())?;
    let made = plan_at(rt, &program, line);
    mem::forget(program);
    mem::forget(text);
    made
}

/// The task's registers: 0, 5, -1, the greatest and the least number, and zeros.
fn registers() -> [i64; 16] {
    let mut regs = [0; 16];
    regs[1] = 5;
    regs[2] = -1;
    regs[3] = i64::MAX;
    regs[4] = i64::MIN;
    regs
}

fn plan_at(rt: &impl AllocGlobal, program: &Program, line: u32) -> Result<Plan, Fail> {
    let instr = program.instr(line).ok_or("no statement")?;
    let config = Config {
        task: TaskName::root(rt.alloc()),
        steps: 1,
        at: instr.line,
        regs: registers(),
    };
    let made = plan(rt.alloc(), instr, &config);
    mem::forget(config);
    Ok(made?)
}

fn text_of(rt: &impl AllocGlobal, action: &Action) -> Result<String, Fail> {
    Ok(format!(in rt.alloc(); "{action:?}")?)
}

/// The statement's plan has this action, and leads to this line.
fn expect_action(
    rt: &(impl Abort + AllocGlobal),
    statement: &str,
    action: &str,
    to: u32,
) -> Result<(), Fail> {
    let found = planned(rt, statement, 3)?;
    assert_eq!(rt; found.to(), to, "{statement}");
    let text = text_of(rt, &found.action);
    mem::forget(found);
    let text = text?;
    assert_eq!(rt; text.as_str(), action, "{statement}");
    mem::forget(text);
    Ok(())
}

fn expect_actions(rt: &(impl Abort + AllocGlobal), rows: &[(&str, &str, u32)]) -> Result<(), Fail> {
    for (statement, action, to) in rows {
        expect_action(rt, statement, action, *to)?;
    }
    Ok(())
}

/// Sums, differences and products wrap.
#[test]
fn copies_and_computations(rt: HostRuntime) -> Result<(), Fail> {
    let rows = [
        ("let r6 r1", "Let { reg: 6, value: 5 }", 4),
        ("let r15 -7", "Let { reg: 15, value: -7 }", 4),
        ("let r6 r1 - 7", "Let { reg: 6, value: -2 }", 4),
        (
            "let r0 r3 + 1",
            "Let { reg: 0, value: -9223372036854775808 }",
            4,
        ),
        (
            "let r0 r4 - 1",
            "Let { reg: 0, value: 9223372036854775807 }",
            4,
        ),
        ("let r0 r3 * 2", "Let { reg: 0, value: -2 }", 4),
        (
            "let r0 r4 * r2",
            "Let { reg: 0, value: -9223372036854775808 }",
            4,
        ),
    ];
    expect_actions(&rt, &rows)
}

/// A bad address makes a fault, at which the task stays.
#[test]
fn cells_are_read_and_written(rt: HostRuntime) -> Result<(), Fail> {
    let rows = [
        ("load r6 1", "Load { reg: 6, cell: 1, value: 0 }", 4),
        ("load r6 r0", "Load { reg: 6, cell: 0, value: 0 }", 4),
        ("load r6 2", "Fault", 3),
        ("load r6 r2", "Fault", 3),
        ("load r6 4294967296", "Fault", 3),
        ("store 1 r2", "Store { cell: 1, value: -1 }", 4),
        ("store r0 r1", "Store { cell: 0, value: 5 }", 4),
        ("store r1 0", "Fault", 3),
        ("store r3 0", "Fault", 3),
        ("print r4", "Print { value: -9223372036854775808 }", 4),
    ];
    expect_actions(&rt, &rows)
}

/// Comparisons are signed.
#[test]
fn tests_and_blocks(rt: HostRuntime) -> Result<(), Fail> {
    let rows = [
        ("if r2 < 0\nprint 1\nend", "Test { yes: true }", 4),
        ("if 0 < r2\nprint 1\nend", "Test { yes: false }", 6),
        ("if r4 < r3\nprint 1\nend", "Test { yes: true }", 4),
        ("if 5 < r1\nprint 1\nend", "Test { yes: false }", 6),
        ("if 5 <= r1\nprint 1\nend", "Test { yes: true }", 4),
        (
            "if r3 <= r4\nprint 1\nelse\nprint 2\nend",
            "Test { yes: false }",
            6,
        ),
        ("if r2 == -1\nprint 1\nend", "Test { yes: true }", 4),
        ("while r2 != -1\nprint 1\nend", "Test { yes: false }", 6),
        ("while r0 != 1\nend", "Test { yes: true }", 3),
        ("taskgroup\nend", "Open", 4),
        ("end\nbody c 0", "End", 3),
        ("taskwait", "Wait { items: [] }", 4),
        ("taskwait depend in 2", "Fault", 3),
        ("taskwait depend in 0 depend out r2", "Fault", 3),
    ];
    expect_actions(&rt, &rows)
}

#[test]
fn a_body_starts_and_a_group_closes(rt: HostRuntime) -> Result<(), Fail> {
    let start = planned(&rt, "taskgroup\nend", 2)?;
    assert!(rt; matches!(&start.action, Action::Start));
    assert_eq!(rt; start.to(), 3);
    mem::forget(start);
    let close = planned(&rt, "taskgroup\nend", 4)?;
    assert!(rt; matches!(&close.action, Action::Close));
    assert_eq!(rt; close.to(), 5);
    mem::forget(close);
    Ok(())
}

/// The spawn of a `task` line: its body, its arguments, its items, whether it is deferred.
fn spawn(rt: &(impl Abort + AllocGlobal), statement: &str) -> Result<String, Fail> {
    let planned = planned(rt, statement, 3)?;
    let text = match &planned.action {
        Action::Spawn(spawned) => spawn_text(rt, spawned.get()),
        action => text_of(rt, action),
    };
    mem::forget(planned);
    text
}

fn spawn_text(rt: &(impl Abort + AllocGlobal), spawn: &Spawn) -> Result<String, Fail> {
    assert!(rt; spawn.child.ordinal() == Some(1), "the first child");
    let (args, items) = (spawn.args.as_slice(), spawn.items.as_slice());
    let (body, deferred) = (spawn.body, spawn.deferred);
    Ok(format!(in rt.alloc(); "{body} {args:?} {items:?} {deferred}")?)
}

fn expect_spawns(rt: &(impl Abort + AllocGlobal), rows: &[(&str, &str)]) -> Result<(), Fail> {
    for (statement, expected) in rows {
        let text = spawn(rt, statement)?;
        assert_eq!(rt; text.as_str(), *expected, "{statement}");
        mem::forget(text);
    }
    Ok(())
}

#[test]
fn tasks_are_spawned(rt: HostRuntime) -> Result<(), Fail> {
    let rows = [
        ("task main", "2 [] [] true"),
        ("task b r2 7", "5 [-1, 7] [] true"),
        ("task main if r1 == 5", "2 [] [] true"),
        ("task main if r1 < 5", "2 [] [] false"),
        ("task main if r3 < r4", "2 [] [] false"),
        (
            "task main depend out all",
            "2 [] [Item { kind: Out, place: All }] true",
        ),
        (
            "task main depend in r0 depend inoutset 1",
            "2 [] [Item { kind: In, place: Cell(0) }, Item { kind: Inoutset, place: Cell(1) }] true",
        ),
        (
            "task b r1 r0 depend mutexinoutset r0 if 0 != 0",
            "5 [5, 0] [Item { kind: Mutexinoutset, place: Cell(0) }] false",
        ),
        ("task main depend in 2", "Fault"),
        ("task main depend in 0 depend inout r2", "Fault"),
        ("task main depend in 2 if 0 == 1", "Fault"),
    ];
    expect_spawns(&rt, &rows)
}
