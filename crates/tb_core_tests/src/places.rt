//! The indexes that a core lends, against a scan of its steps: after each step, undo and rollback
//! of histories that are made by a fixed rule. At the end of each, what its steps need and what
//! needs them.

use crate::causes;
use crate::taking::fits;
use std::alloc::AllocGlobal;
use std::mem;
use std::process::Abort;
use tb_core::{Core, History};
use tb_model::{Action, StepId, TaskName};
use tb_plan::plan;
use tb_read::{Program, read};
use tb_roll::roll;

/// Among these a `taskwait`, tasks that depend on and exclude each other, tasks of tasks, loops, a bad address, and a group in a
/// group.
const PROGRAMS: [&[u8]; 6] = [
    b"cells 2\nbody main 0\ntask a\ntask b\nstore 1 4\nprint 1\nend\nbody a 0\nload r0 0\nprint r0\n\
    store 1 7\nend\nbody b 0\nload r0 1\nstore 0 9\nload r1 0\nprint r1\nend\n",
    b"cells 3\nbody main 0\ntask a 1\ntask a 2\ntask a 3\ntaskwait\nload r0 1\nprint r0\nend\n\
    body a 1\nstore r0 5\nlet r1 2\nwhile 0 < r1\nload r2 1\nstore 1 r1\nlet r1 r1 - 1\nend\nend\n",
    b"cells 1\nbody main 0\ntask a depend out 0\ntask b depend in 0\ntask b depend in 0\nprint 3\nend\n\
    body a 0\ntask b\nstore 0 6\nend\nbody b 0\nload r0 0\nprint r0\nprint r0\nend\n",
    b"cells 2\nbody main 0\nlet r0 3\nwhile 0 < r0\nstore 1 r0\nprint r0\nlet r0 r0 - 1\nend\ntask a\n\
    end\nbody a 0\nload r0 1\nstore 7 0\nend\n",
    b"cells 1\nbody main 0\ntaskgroup\ntask f\ntaskgroup\ntask f\nend\nprint 1\nend\ntask g\nend\n\
    body f 0\ntask g\nstore 0 2\nend\nbody g 0\nload r0 0\nend\n",
    b"cells 1\nbody main 0\ntask e 1 depend mutexinoutset 0\ntask e 2 depend mutexinoutset 0\n\
    task e 3 depend mutexinoutset 0\ntaskwait\nend\nbody e 1\nload r1 0\nlet r1 r1 + r0\nstore 0 r1\nend\n",
];

const TASKS: [&str; 5] = ["0", "0.1", "0.2", "0.3", "0.1.1"];

/// What is looked for.
#[derive(Drop)]
enum Wanted<'a> {
    Task(&'a TaskName),
    Cell(u32),
    Print,
}

fn passes(task: &TaskName, action: &Action, wanted: &Wanted) -> bool {
    match wanted {
        Wanted::Task(whose) => *task == **whose,
        Wanted::Cell(cell) => match action {
            Action::Load { cell: loaded, .. } => loaded == cell,
            Action::Store { cell: stored, .. } => stored == cell,
            _ => false,
        },
        Wanted::Print => action.is_print(),
    }
}

/// Asserts that the found indexes are those of exactly the steps that are wanted.
fn compare(rt: &impl Abort, found: &[u32], entries: &History<'_>, wanted: &Wanted) {
    let mut next = 0;
    for at in 0..entries.len() {
        if passes(entries.task(at), entries.action(at), wanted) {
            assert!(rt; next < found.len());
            assert_eq!(rt; found[next] as usize, at);
            next += 1;
        }
    }
    assert_eq!(rt; next, found.len());
}

fn compare_all(rt: &(impl Abort + AllocGlobal), core: &Core) {
    let entries = core.legal_entries();
    for text in TASKS {
        let task = TaskName::parse(rt.alloc(), text.as_bytes()).expect(rt, text);
        compare(rt, core.events_of(&task), &entries, &Wanted::Task(&task));
    }
    for cell in 0..4 {
        compare(rt, core.touches(cell), &entries, &Wanted::Cell(cell));
    }
    compare(rt, core.prints(), &entries, &Wanted::Print);
}

/// The task executes its next step, if it has one.
fn take_step(rt: &(impl Abort + AllocGlobal), program: &Program, core: &mut Core, task: &TaskName) {
    if core.has_ended(task) {
        return;
    }
    let Some(config) = core.config(task).expect(rt, "memory is there") else {
        return;
    };
    let instr = program.instr(config.at).expect(rt, "a statement");
    let made = plan(rt.alloc(), instr, &config).expect(rt, "memory is there");
    mem::forget(config);
    assert!(rt; fits(core, &made));
    mem::forget(core.step(made));
}

/// The next number of the rule.
fn next_number(seed: u32) -> u32 {
    seed.wrapping_mul(1_103_515_245).wrapping_add(12_345)
}

/// One move: mostly a step, else a step is taken back, alone or with all that need it.
fn make_move(rt: &(impl Abort + AllocGlobal), program: &Program, core: &mut Core, seed: u32) {
    let text = TASKS[(seed >> 8) as usize % 5];
    let task = TaskName::parse(rt.alloc(), text.as_bytes()).expect(rt, text);
    let kind = (seed >> 12) % 8;
    if kind < 6 {
        take_step(rt, program, core, &task);
        mem::forget(task);
        return;
    }
    let id = StepId {
        task,
        k: (seed >> 16) % 9,
    };
    if kind == 6 {
        mem::forget(core.undo(id));
    } else {
        mem::forget(roll(rt.alloc(), core, &id));
        mem::forget(id);
    }
}

fn run_history(rt: &(impl Abort + AllocGlobal), text: &[u8], first: u32) {
    let program = read(rt.alloc(), text).expect(rt, "an accepted program");
    let opened = Core::open(rt.alloc(), program.cells(), program.root_line(), 100);
    let mut core = opened.expect(rt, "memory is there");
    let mut seed = first;
    for _ in 0..60 {
        seed = next_number(seed);
        make_move(rt, &program, &mut core, seed);
        compare_all(rt, &core);
    }
    causes::compare_all(rt, &core);
    mem::forget(core);
    mem::forget(program);
}

#[test]
fn places_and_needs_are_those_that_a_scan_finds(rt: HostRuntime) {
    for history in 0..200_u32 {
        run_history(&rt, PROGRAMS[history as usize % 6], history);
    }
}
