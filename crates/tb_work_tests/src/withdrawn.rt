//! Plans whose claim a rollback withdrew.

use crate::asking::{committed, planned, planned_at, rolled, step_all, undone};
use crate::scenario::{Left, Scenario};
use crate::team::{opened, play};
use std::alloc::AllocGlobal;
use std::process::Abort;
use std::sync::Wait;
use std::thread::Threads;
use tb_work::{Seat, Shared, Team};

pub const SPAWNED: &[u8] = b"cells 2\nbody main 0\n  task u 0\n  task u 1\nend\nbody u 1\n\
    let r1 r0 + 1\n  store r0 r1\n  load r2 r0\nend\n";

/// The root's steps.
pub const ROOT: [&str; 4] = ["0", "0", "0", "0"];

/// One seat takes a step back after which another claims.
pub fn remove_a_claimed_step<N: Team + Send + Sync, R: Threads + Wait + Abort + AllocGlobal + Sync>(
    rt: &R,
    shared: &Shared<N>,
    seats: &mut [Seat<N>],
) {
    let [zero, one, two] = seats else {
        panic!(rt; "three seats")
    };
    step_all(rt, shared, zero, ROOT.as_slice());
    step_all(rt, shared, zero, ["0.1"].as_slice());
    let first = planned_at(rt, shared, one, 7);
    let second = planned_at(rt, shared, two, 6);
    assert_eq!(rt; committed(rt, shared, two, second), 6);
    assert_eq!(rt; rolled(rt, shared, zero, "0.1#1"), 1);
    assert_eq!(rt; committed(rt, shared, one, first), 110);
}

/// One seat takes the spawn of a task back that another claims.
pub fn remove_a_claimed_task<N: Team + Send + Sync, R: Threads + Wait + Abort + AllocGlobal + Sync>(
    rt: &R,
    shared: &Shared<N>,
    seats: &mut [Seat<N>],
) {
    let [zero, one, _] = seats else {
        panic!(rt; "three seats")
    };
    step_all(rt, shared, zero, ROOT.as_slice());
    let plan = planned(rt, shared, one, "0.1");
    assert_eq!(rt; undone(rt, shared, zero, "0#1"), 102);
    assert_eq!(rt; rolled(rt, shared, zero, "0#2"), 3);
    assert_eq!(rt; committed(rt, shared, one, plan), 110);
    assert_eq!(rt; undone(rt, shared, zero, "0#1"), 1);
}

#[test]
fn a_plan_behind_a_removed_step_is_withdrawn(rt: HostRuntime) {
    let live = opened(rt.alloc(), SPAWNED, 20, 3).expect(&rt, "an accepted program");
    let left = Left {
        steps: 5,
        entries: Some(8),
        cells: Some(&[0, 0]),
    };
    play(&rt, live, Scenario::RemoveStep, &left);
}

#[test]
fn a_plan_of_a_removed_task_is_withdrawn(rt: HostRuntime) {
    let live = opened(rt.alloc(), SPAWNED, 20, 3).expect(&rt, "an accepted program");
    let left = Left {
        steps: 0,
        entries: Some(7),
        cells: Some(&[0, 0]),
    };
    play(&rt, live, Scenario::RemoveTask, &left);
}
