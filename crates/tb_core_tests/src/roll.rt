//! On cores of a few steps: what needs what, what goes with a step, and which runs are one.

use crate::taking::{fits, next_plan, opened, take_steps, taken};
use std::alloc::AllocGlobal;
use std::mem;
use std::process::Abort;
use tb_cause::{needed_by, needs};
use tb_core::{Core, Removed, StepRefusal};
use tb_model::{StepId, TaskName};
use tb_read::read;
use tb_roll::{finish, ready, roll, same_run};

/// Two tasks that store one number to one cell.
const TWICE: &[u8] = b"cells 1\nbody main 0\ntask s\ntask s\nend\nbody s 0\nstore 0 1\nend\n";

/// Two tasks that store one number to one cell, another number than those of `TWICE`.
const OTHER: &[u8] = b"cells 1\nbody main 0\ntask s\ntask s\nend\nbody s 0\nstore 0 2\nend\n";

const FIRST_THEN_SECOND: [&str; 9] = ["0", "0", "0", "0.1", "0.1", "0.1", "0.2", "0.2", "0.2"];

/// A program, an order of its steps, whether that leaves the state which `FIRST_THEN_SECOND` leaves, and whether it is one run
/// with that: two runs may leave one state and be different.
const RUNS: [(&[u8], &[&str], bool, bool); 5] = [
    (TWICE, &FIRST_THEN_SECOND, true, true),
    (
        TWICE,
        &["0", "0", "0", "0.2", "0.2", "0.2", "0.1", "0.1", "0.1"],
        true,
        false,
    ),
    (
        TWICE,
        &["0", "0", "0", "0.2", "0.1", "0.1", "0.1", "0.2", "0.2"],
        true,
        true,
    ),
    (OTHER, &FIRST_THEN_SECOND, false, false),
    (
        TWICE,
        &["0", "0", "0", "0.1", "0.1", "0.1", "0.2", "0.2"],
        false,
        false,
    ),
];

/// Whether the task is at one line in both cores, after as many steps, with the same registers, and over in both or in none.
fn stands_alike(rt: &(impl Abort + AllocGlobal), core: &Core, other: &Core, text: &str) -> bool {
    let task = TaskName::parse(rt.alloc(), text.as_bytes()).expect(rt, text);
    let alike = match (core.standing(&task), other.standing(&task)) {
        (Some(one), Some(two)) => {
            one.steps() == two.steps() && one.at() == two.at() && one.regs() == two.regs()
        }
        _ => false,
    };
    let over = core.has_ended(&task) == other.has_ended(&task);
    mem::forget(task);
    alike && over
}

/// Whether both cores have the same cells and prints, and each of the three tasks is in one state in both.
fn has_one_state(rt: &(impl Abort + AllocGlobal), core: &Core, other: &Core) -> bool {
    core.cells() == other.cells()
        && core.output() == other.output()
        && stands_alike(rt, core, other, "0")
        && stands_alike(rt, core, other, "0.1")
        && stands_alike(rt, core, other, "0.2")
}

fn compare(rt: &(impl Abort + AllocGlobal), core: &Core, other: &Core, same: bool) {
    let found = same_run(rt.alloc(), core, other).expect(rt, "memory is there");
    assert_eq!(rt; found, same);
    let back = same_run(rt.alloc(), other, core).expect(rt, "memory is there");
    assert_eq!(rt; back, same);
}

fn compare_with(
    rt: &(impl Abort + AllocGlobal),
    core: &Core,
    text: &[u8],
    names: &[&str],
    state: bool,
    same: bool,
) {
    let other = taken(rt, text, names);
    assert_eq!(rt; has_one_state(rt, core, &other), state);
    compare(rt, core, &other, same);
    mem::forget(other);
}

fn compare_all(rt: &(impl Abort + AllocGlobal), core: &Core) {
    for (text, names, state, same) in RUNS {
        compare_with(rt, core, text, names, state, same);
    }
}

/// How many steps the task had executed where the refusal found it.
fn steps_elsewhere(rt: &impl Abort, refusal: Option<StepRefusal>) -> u32 {
    let Some(StepRefusal::Stale { now }) = refusal else {
        panic!(rt; "not stale")
    };
    now.get().steps
}

#[test]
fn a_plan_that_comes_late_is_stale(rt: HostRuntime) {
    let program = read(rt.alloc(), TWICE).expect(&rt, "an accepted program");
    let mut core = opened(&rt, &program);
    let early = next_plan(&rt, &program, &core, "0");
    take_steps(&rt, &program, &mut core, &["0", "0"]);
    assert!(rt; fits(&core, &early));
    assert_eq!(rt; steps_elsewhere(&rt, core.refusal(&early)), 2);
    assert_eq!(rt; core.children(&early.config.task), Some(1));
    let found = core
        .elsewhere(&early.config.task)
        .expect(&rt, "memory is there");
    assert_eq!(rt; found.expect(&rt, "the root").get().steps, 2);
    mem::forget(early);
    mem::forget(core);
    mem::forget(program);
}

#[test]
fn runs_of_one_order_of_needs_are_one(rt: HostRuntime) {
    let core = taken(&rt, TWICE, &FIRST_THEN_SECOND);
    compare_all(&rt, &core);
    mem::forget(core);
}

/// A load, and a later store to its cell, of two tasks.
const CONFLICT: &[u8] = b"cells 1\ncell 0 5\nbody main 0\ntask a\ntask b\nend\nbody a 0\n\
    load r0 0\nprint r0\nend\nbody b 0\nlet r0 1\nstore 0 9\nend\n";

const STEPS: [&str; 8] = ["0", "0", "0", "0.1", "0.1", "0.2", "0.2", "0.2"];

fn step(rt: &(impl Abort + AllocGlobal), text: &str) -> StepId {
    StepId::parse(rt.alloc(), text.as_bytes()).expect(rt, text)
}

fn add(rt: &impl Abort, text: &mut String, id: &StepId) {
    id.print(text).expect(rt, "memory is there");
    text.push_str(" ").expect(rt, "memory is there");
}

fn told(rt: &(impl Abort + AllocGlobal), steps: &[StepId]) -> String {
    let mut text = String::new(rt.alloc());
    for id in steps {
        add(rt, &mut text, id);
    }
    text
}

fn gone(rt: &(impl Abort + AllocGlobal), removed: &[Removed]) -> String {
    let mut text = String::new(rt.alloc());
    for one in removed {
        add(rt, &mut text, &one.id);
    }
    text
}

/// A step, what needs it, and what it needs.
const NEEDS: [(&str, &str, &str); 4] = [
    ("0.1#2", "0.2#3 ", "0#1 0#2 0.1#1 "),
    ("0.2#3", "", "0#1 0#2 0#3 0.1#1 0.1#2 0.2#1 0.2#2 "),
    ("0#3", "0.2#1 0.2#2 0.2#3 ", "0#1 0#2 "),
    ("0.2#1", "0.2#2 0.2#3 ", "0#1 0#2 0#3 "),
];

fn compare_needs(rt: &(impl Abort + AllocGlobal), core: &Core, row: &(&str, &str, &str)) {
    let id = step(rt, row.0);
    let later = needed_by(rt.alloc(), core, &id).expect(rt, row.0);
    assert_eq!(rt; told(rt, &later).as_str(), row.1);
    let earlier = needs(rt.alloc(), core, &id).expect(rt, row.0);
    assert_eq!(rt; told(rt, &earlier).as_str(), row.2);
}

/// A step that isn't there is refused in each call.
fn refuse(rt: &(impl Abort + AllocGlobal), core: &mut Core, id: &StepId) {
    let by = needed_by(rt.alloc(), core, id).expect_err(rt, "no such step");
    assert_eq!(rt; by.number(), 1);
    let why = needs(rt.alloc(), core, id).expect_err(rt, "no such step");
    assert_eq!(rt; why.number(), 1);
    let kept = roll(rt.alloc(), core, id).expect_err(rt, "no such step");
    assert_eq!(rt; kept.number(), 1);
}

/// Rolls a step back in two parts: what goes is returned in both.
fn roll_in_two(rt: &(impl Abort + AllocGlobal), core: &mut Core, id: &str, steps: &str) {
    let id = step(rt, id);
    let prepared = ready(rt.alloc(), core, &id).expect(rt, steps);
    assert!(rt; *prepared.step() == id);
    assert_eq!(rt; told(rt, prepared.steps_to_remove()).as_str(), steps);
    let removed = finish(core, prepared);
    assert_eq!(rt; gone(rt, &removed).as_str(), steps);
}

fn roll_at_once(rt: &(impl Abort + AllocGlobal), core: &mut Core, id: &str, steps: &str) {
    let id = step(rt, id);
    let removed = roll(rt.alloc(), core, &id).expect(rt, steps);
    assert_eq!(rt; gone(rt, &removed).as_str(), steps);
}

fn ask_and_roll(rt: &(impl Abort + AllocGlobal), core: &mut Core) {
    for row in &NEEDS {
        compare_needs(rt, core, row);
    }
    refuse(rt, core, &step(rt, "0.2#4"));
    assert_eq!(rt; core.count(), 8);
    roll_in_two(rt, core, "0.1#2", "0.1#2 0.2#3 ");
    assert_eq!(rt; core.count(), 6);
    roll_at_once(rt, core, "0#3", "0#3 0.2#1 0.2#2 ");
    assert_eq!(rt; core.count(), 3);
    assert!(rt; core.cells() == [5].as_slice());
}

#[test]
fn a_step_goes_with_all_that_need_it(rt: HostRuntime) {
    let mut core = taken(&rt, CONFLICT, &STEPS);
    ask_and_roll(&rt, &mut core);
    mem::forget(core);
}
