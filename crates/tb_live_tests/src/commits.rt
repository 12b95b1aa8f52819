//! Plans that are made at some time and committed at another.

ghost use Rattle.std.specs.Prelude.{◌≤◌};

use crate::seats::{SPAWNED, gone, opened, step_all, task};
use std::alloc::AllocGlobal;
use std::mem;
use std::process::Abort;
use tb_live::{CommitRefusal, Live, Work};
use tb_model::StepId;
use tb_plan::{Plan, plan};

/// The plan of the task, which the seat claims then.
fn planned(rt: &(impl Abort + AllocGlobal), live: &mut Live, seat: u32, name: &str) -> Plan {
    assert!(rt; seat < live.seats());
    let task = task(rt, name);
    let claimed = live.claim_task(seat, &task);
    mem::forget(task);
    match claimed {
        Ok(work) => {
            let made = evaluated(rt, &work);
            mem::forget(work);
            made
        }
        Err(refusal) => {
            mem::forget(refusal);
            panic!(rt; "a claim on {name}")
        }
    }
}

fn evaluated(rt: &(impl Abort + AllocGlobal), work: &Work) -> Plan {
    assert!(rt; work.instr.line == work.config.at);
    plan(rt.alloc(), &work.instr, &work.config).expect(rt, "a plan")
}

/// 100 more than the code of the refusal.
fn refused(refusal: CommitRefusal) -> u32 {
    let number = refusal.number();
    mem::forget(refusal);
    100 + u32::from(number)
}

/// The slot of the entry, or 100 more than the code of the refusal.
fn committed(live: &mut Live, seat: u32, plan: Plan) -> u32 {
    match live.commit(seat, plan) {
        Ok(place) => place,
        Err(refusal) => refused(refusal),
    }
}

/// 1 where the commit is prepared, or 100 more than the code of the refusal.
fn prepared(live: &mut Live, seat: u32, plan: &Plan) -> u32 {
    match live.prepare(seat, plan) {
        Ok(entry) => {
            mem::forget(entry);
            1
        }
        Err(refusal) => refused(refusal),
    }
}

/// Whether the undo of the step for seat 0 was made.
fn undone(rt: &(impl Abort + AllocGlobal), live: &mut Live, text: &str) -> bool {
    let id = step(rt, text);
    let outcome = live.undo(0, &id);
    let is_made = outcome.is_ok();
    mem::forget(outcome);
    mem::forget(id);
    is_made
}

/// Whether the rollback of the step for seat 0 was prepared.
fn roll_prepared(rt: &(impl Abort + AllocGlobal), live: &mut Live, text: &str) -> bool {
    let id = step(rt, text);
    let prepared = live.prepare_roll(0, &id);
    let is_prepared = prepared.is_ok();
    mem::forget(prepared);
    mem::forget(id);
    is_prepared
}

/// Steps of the root by plans of seat 0, each prepared first.
fn commit_root(rt: &(impl Abort + AllocGlobal), live: &mut Live) {
    for place in 1..5u32 {
        let plan = planned(rt, live, 0, "0");
        assert_eq!(rt; prepared(live, 0, &plan), 1);
        assert_eq!(rt; committed(live, 0, plan), place);
    }
}

/// What two other seats planned, one of them for a step that goes.
fn withdraw_a_plan(rt: &(impl Abort + AllocGlobal), live: &mut Live) {
    step_all(rt, live, ["0.1"].as_slice());
    let first = planned(rt, live, 1, "0.1");
    let second = planned(rt, live, 2, "0.2");
    assert_eq!(rt; committed(live, 2, second), 6);
    assert_eq!(rt; gone(rt, live, "0.1#1"), 1);
    assert_eq!(rt; committed(live, 1, first), 110);
    assert_eq!(rt; live.core().count(), 5);
    assert_eq!(rt; live.journal().len(), 8);
}

#[test]
fn a_plan_of_a_removed_step_is_withdrawn(rt: HostRuntime) {
    let mut live = opened(rt.alloc(), SPAWNED).expect(&rt, "an accepted program");
    commit_root(&rt, &mut live);
    withdraw_a_plan(&rt, &mut live);
    mem::forget(live);
}

/// A plan of a task whose spawn goes, and then the root's start.
fn withdraw_a_spawn(rt: &(impl Abort + AllocGlobal), live: &mut Live) {
    let plan = planned(rt, live, 1, "0.1");
    assert!(rt; roll_prepared(rt, live, "0#2"));
    assert_eq!(rt; gone(rt, live, "0#2"), 3);
    assert_eq!(rt; committed(live, 1, plan), 110);
    assert!(rt; undone(rt, live, "0#1"));
    assert_eq!(rt; live.core().count(), 0);
}

fn step(rt: &(impl Abort + AllocGlobal), text: &str) -> StepId {
    StepId::parse(rt.alloc(), text.as_bytes()).expect(rt, text)
}

#[test]
fn a_plan_of_a_removed_task_is_withdrawn(rt: HostRuntime) {
    let mut live = opened(rt.alloc(), SPAWNED).expect(&rt, "an accepted program");
    commit_root(&rt, &mut live);
    withdraw_a_spawn(&rt, &mut live);
    mem::forget(live);
}

const UNDEFERRED: &[u8] = b"cells 1\nbody main 0\n  task a 1 if 1 == 2\n  print 9\nend\n\
    body a 1\n  store 0 r0\nend\n";

/// A plan after an undeferred child that has ended, and then hasn't.
fn undo_the_end(rt: &(impl Abort + AllocGlobal), live: &mut Live) {
    let plan = planned(rt, live, 1, "0");
    assert_eq!(rt; prepared(live, 1, &plan), 1);
    assert!(rt; undone(rt, live, "0.1#3"));
    assert_eq!(rt; committed(live, 1, plan), 113);
}

#[test]
fn a_plan_waits_for_an_undeferred_child(rt: HostRuntime) {
    let mut live = opened(rt.alloc(), UNDEFERRED).expect(&rt, "an accepted program");
    step_all(&rt, &mut live, ["0", "0", "0.1", "0.1", "0.1"].as_slice());
    undo_the_end(&rt, &mut live);
    mem::forget(live);
}

const OTHER: &[u8] = b"cells 2\nbody main 0\n  task u 0\n  task u 2\nend\nbody u 1\n  end\n";

/// A plan of another program, and one in a paused run.
fn refuse_plans(rt: &(impl Abort + AllocGlobal), live: &mut Live, other: Plan) {
    let plan = planned(rt, live, 0, "0");
    assert_eq!(rt; committed(live, 0, other), 108);
    live.pause();
    assert_eq!(rt; prepared(live, 0, &plan), 109);
    assert_eq!(rt; committed(live, 0, plan), 109);
}

#[test]
fn a_plan_is_of_the_program(rt: HostRuntime) {
    let mut live = opened(rt.alloc(), SPAWNED).expect(&rt, "an accepted program");
    let mut foreign = opened(rt.alloc(), OTHER).expect(&rt, "an accepted program");
    step_all(&rt, &mut live, ["0", "0"].as_slice());
    step_all(&rt, &mut foreign, ["0", "0"].as_slice());
    let other = planned(&rt, &mut foreign, 0, "0");
    refuse_plans(&rt, &mut live, other);
    mem::forget(live);
    mem::forget(foreign);
}
