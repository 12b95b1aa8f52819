//! Private statements that a seat takes in one hold of the lock.

ghost use Rattle.std.specs.Prelude.{◌<◌, ◌≤◌, length};

use crate::asking::{burst_committed, burst_planned, committed, planned, rolled, step_all, undone};
use crate::gates::Counting;
use crate::goes::go;
use crate::scenario::{Left, Scenario};
use crate::team::{opened, play};
use crate::withdrawn::{ROOT, SPAWNED};
use std::alloc::AllocGlobal;
use std::process::Abort;
use std::sync::Wait;
use std::thread::Threads;
use tb_work::{Seat, Shared, Team, Why};

/// After the start 202 private statements, a print and the end.
const COUNTED: &[u8] = b"cells 0\nbody main 0\n  let r0 100\n  while 0 < r0\n    let r0 r0 - 1\n\
    end\n  print r0\nend\n";

const BURSTS: [u32; 7] = [1, 64, 64, 64, 10, 1, 1];

const COUNTED_ALL: Left = Left {
    steps: 205,
    entries: Some(206),
    cells: Some(&[]),
};

/// One burst after another, each of as many steps as it is to take.
pub fn burst_in_turn<N: Team + Send + Sync, R: Threads + Wait + Abort + AllocGlobal + Sync>(
    rt: &R,
    shared: &Shared<N>,
    seats: &mut [Seat<N>],
) {
    let [seat] = seats else {
        panic!(rt; "one seat")
    };
    for taken in BURSTS {
        let plans = burst_planned(rt, shared, seat);
        assert_eq!(rt; burst_committed(rt, shared, seat, plans), (taken, 0));
    }
}

/// A worker comes to the gate once a burst. It stops in the midst of one where it is to take no more.
pub fn go_by_bursts<N: Team + Send + Sync, R: Threads + Wait + Abort + AllocGlobal + Sync>(
    rt: &R,
    shared: &Shared<N>,
    seats: &mut [Seat<N>],
) {
    assert!(rt; go(rt, shared, seats, 10) == (10, Why::Limit));
    assert!(rt; !seats.is_empty() && seats.len() <= 65);
    assert_eq!(rt; rolled(rt, shared, &mut seats[0], "0#1"), 10);
    shared.resume(rt);
    let gate = Counting::new();
    match shared.go(rt, seats, 1000, &gate) {
        Ok(ran) => assert!(rt; ran.steps == 205 && ran.why == Why::Done),
        Err(_) => panic!(rt; "a run"),
    }
    assert_eq!(rt; gate.calls(), 7);
}

/// A rollback withdraws a burst, after a step that goes and of a task that goes. Without plans a
/// burst ends the claim.
pub fn withdraw_a_burst<N: Team + Send + Sync, R: Threads + Wait + Abort + AllocGlobal + Sync>(
    rt: &R,
    shared: &Shared<N>,
    seats: &mut [Seat<N>],
) {
    let [zero, one, two] = seats else {
        panic!(rt; "three seats")
    };
    step_all(rt, shared, zero, ROOT.as_slice());
    step_all(rt, shared, zero, ["0.1"].as_slice());
    let first = burst_planned(rt, shared, one);
    let second = burst_planned(rt, shared, two);
    assert_eq!(rt; burst_committed(rt, shared, two, second), (1, 0));
    assert_eq!(rt; rolled(rt, shared, zero, "0.1#1"), 1);
    assert_eq!(rt; burst_committed(rt, shared, one, first), (0, 10));
    commit_nothing(rt, shared, one);
    // four steps of the root and one are left, and eight entries
    let plan = planned(rt, shared, two, "0.2");
    assert_eq!(rt; committed(rt, shared, two, plan), 8);
    assert_eq!(rt; rolled(rt, shared, zero, "0.2#1"), 2);
    let pending = burst_planned(rt, shared, one);
    assert_eq!(rt; rolled(rt, shared, zero, "0#2"), 3);
    assert_eq!(rt; burst_committed(rt, shared, one, pending), (0, 10));
    assert_eq!(rt; undone(rt, shared, zero, "0#1"), 1);
}

fn commit_nothing<N: Team, R: Wait + Abort + AllocGlobal>(
    rt: &R,
    shared: &Shared<N>,
    seat: &mut Seat<N>,
) {
    let _plan = planned(rt, shared, seat, "0.1");
    assert_eq!(rt;
        burst_committed(rt, shared, seat, Vec::new(rt.alloc())),
        (0, 0)
    );
}

#[test]
fn bursts_end_where_they_are_to(rt: HostRuntime) {
    let live = opened(rt.alloc(), COUNTED, 300, 1).expect(&rt, "an accepted program");
    play(&rt, live, Scenario::Burst, &COUNTED_ALL);
}

#[test]
fn a_worker_takes_bursts(rt: HostRuntime) {
    let live = opened(rt.alloc(), COUNTED, 300, 1).expect(&rt, "an accepted program");
    let left = Left {
        entries: Some(217),
        ..COUNTED_ALL
    };
    play(&rt, live, Scenario::GoByBursts, &left);
}

#[test]
fn bursts_behind_what_is_removed_are_withdrawn(rt: HostRuntime) {
    let live = opened(rt.alloc(), SPAWNED, 20, 3).expect(&rt, "an accepted program");
    let left = Left {
        steps: 0,
        entries: Some(12),
        cells: Some(&[0, 0]),
    };
    play(&rt, live, Scenario::WithdrawBurst, &left);
}
