//! Rollbacks, pauses and other workers next to running workers.

ghost use Rattle.std.specs.Prelude.{◌<◌, ◌≤◌, length};

use crate::asking::{committed, planned, rolled, step_all};
use crate::gates::{Signal, comes};
use crate::goes::{ADDED, ADDED_ALL, go};
use crate::scenario::{Left, Scenario};
use crate::team::{opened, play};
use std::alloc::AllocGlobal;
use std::process::Abort;
use std::sync::Wait;
use std::sync::atomic::AtomicU64;
use std::thread;
use std::thread::Threads;
use tb_work::{Seat, Shared, Team, Why};

/// Asks a hundred times for a rollback of a task's start, which may not be there.
fn roll_often<N: Team, R: Wait + Abort + AllocGlobal>(
    rt: &R,
    shared: &Shared<N>,
    seat: &mut Seat<N>,
) {
    for _round in 0..100u32 {
        let gone = rolled(rt, shared, seat, "0.3#1");
        assert!(rt; gone == 101 || gone <= 40, "{gone}");
        thread::yield_now();
    }
}

/// One seat rolls back next to the workers of the others.
pub fn roll_beside_workers<N: Team + Send + Sync, R: Threads + Wait + Abort + AllocGlobal + Sync>(
    rt: &R,
    shared: &Shared<N>,
    seats: &mut [Seat<N>],
) {
    if let Some((first, rest)) = seats.split_first_mut() {
        thread::join(
            rt,
            || roll_often(rt, shared, first),
            || {
                let _ran = go(rt, shared, rest, 100_000);
            },
        );
    }
    let (_, why) = go(rt, shared, seats, 100_000);
    assert!(rt; why == Why::Done);
}

#[test]
fn roll_beside(rt: HostRuntime) {
    let live = opened(rt.alloc(), ADDED, 100_000, 5).expect(&rt, "an accepted program");
    play(&rt, live, Scenario::RollBeside, &ADDED_ALL);
}

/// Pauses the run once a worker has come. Whether one came.
fn pause_behind<N: Team, R: Wait>(rt: &R, shared: &Shared<N>, called: &AtomicU64) -> bool {
    let has_come = comes(called, 1);
    shared.pause(rt);
    has_come
}

/// Why the workers stopped.
fn go_and_tell<N: Team + Send + Sync, R: Threads + Wait + Abort + Sync>(
    rt: &R,
    shared: &Shared<N>,
    seats: &mut [Seat<N>],
    signal: &Signal,
) -> Why {
    assert!(rt; !seats.is_empty() && seats.len() <= 65);
    match shared.go(rt, seats, 100_000, signal) {
        Ok(ran) => ran.why,
        Err(_) => panic!(rt; "a run"),
    }
}

/// One seat pauses the workers of the others.
pub fn pause_workers<N: Team + Send + Sync, R: Threads + Wait + Abort + AllocGlobal + Sync>(
    rt: &R,
    shared: &Shared<N>,
    seats: &mut [Seat<N>],
) {
    let Some((first, rest)) = seats.split_first_mut() else {
        panic!(rt; "five seats")
    };
    step_all(rt, shared, first, ["0"].as_slice());
    let plan = planned(rt, shared, first, "0");
    shared.let_go(rt, first);
    let signal = Signal {
        called: AtomicU64::new(0),
    };
    let (has_come, why) = thread::join(
        rt,
        || pause_behind(rt, shared, &signal.called),
        || go_and_tell(rt, shared, rest, &signal),
    );
    assert!(rt; has_come && (why == Why::Asked || why == Why::Done));
    assert_eq!(rt; committed(rt, shared, first, plan), 109);
    assert!(rt; rolled(rt, shared, first, "0#1") <= 50);
}

#[test]
fn pause_beside(rt: HostRuntime) {
    let live = opened(rt.alloc(), ADDED, 1000, 5).expect(&rt, "an accepted program");
    let left = Left {
        steps: 0,
        entries: None,
        cells: Some(&[0]),
    };
    play(&rt, live, Scenario::PauseBeside, &left);
}

/// Workers of some seats next to those of others.
pub fn go_beside_workers<N: Team + Send + Sync, R: Threads + Wait + Abort + AllocGlobal + Sync>(
    rt: &R,
    shared: &Shared<N>,
    seats: &mut [Seat<N>],
) {
    let (some, others) = seats.split_at_mut(seats.len() / 2);
    thread::join(
        rt,
        || {
            let _ran = go(rt, shared, some, 1000);
        },
        || {
            let _ran = go(rt, shared, others, 1000);
        },
    );
    let (_, why) = go(rt, shared, seats, 1000);
    assert!(rt; why == Why::Done);
}

#[test]
fn go_beside_go(rt: HostRuntime) {
    for _round in 0..20u32 {
        let live = opened(rt.alloc(), ADDED, 100, 4).expect(&rt, "an accepted program");
        play(&rt, live, Scenario::GoBeside, &ADDED_ALL);
    }
}
