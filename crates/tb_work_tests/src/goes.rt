//! Workers that nobody disturbs: how many steps they execute, and why no more.

ghost use Rattle.std.specs.Prelude.{◌<◌, ◌≤◌, length};

use crate::asking::{committed, planned, rolled};
use crate::gates::Open;
use crate::scenario::{Left, Scenario};
use crate::team::{opened, opened_to_stop, play};
use std::alloc::AllocGlobal;
use std::process::Abort;
use std::sync::Wait;
use std::thread::Threads;
use tb_work::{Seat, Shared, Team, Why};

/// Eight tasks that exclude each other add 1 to 8 to a cell.
pub const ADDED: &[u8] = b"cells 1\nbody main 0\n\
    task add 1 depend mutexinoutset 0\n  task add 2 depend mutexinoutset 0\n\
    task add 3 depend mutexinoutset 0\n  task add 4 depend mutexinoutset 0\n\
    task add 5 depend mutexinoutset 0\n  task add 6 depend mutexinoutset 0\n\
    task add 7 depend mutexinoutset 0\n  task add 8 depend mutexinoutset 0\nend\n\
    body add 1\n  load r1 0\n  let r1 r1 + r0\n  store 0 r1\nend\n";

const STORED: &[u8] = b"cells 3\nbody main 0\n  store 1 1\n  store 2 5\n  print 1\nend\n";

pub const ADDED_ALL: Left = Left {
    steps: 50,
    entries: None,
    cells: Some(&[36]),
};

/// Which steps come first is up to the workers.
const ADDED_IN_PART: Left = Left {
    steps: 19,
    entries: Some(20),
    cells: None,
};

const STORED_ALL: Left = Left {
    steps: 5,
    entries: Some(6),
    cells: Some(&[0, 1, 5]),
};

/// How many steps the workers of these seats take, and why no more.
pub fn go<N: Team + Send + Sync, R: Threads + Wait + Abort + Sync>(
    rt: &R,
    shared: &Shared<N>,
    seats: &mut [Seat<N>],
    most: u32,
) -> (u64, Why) {
    assert!(rt; !seats.is_empty() && seats.len() <= 65);
    match shared.go(rt, seats, most, &Open) {
        Ok(ran) => (ran.steps, ran.why),
        Err(_) => panic!(rt; "a run"),
    }
}

/// One `go` after another, each with what it is to answer.
pub fn go_in_turn<N: Team + Send + Sync, R: Threads + Wait + Abort + Sync>(
    rt: &R,
    shared: &Shared<N>,
    seats: &mut [Seat<N>],
    goes: &[(u32, u64, Why)],
) {
    for (most, steps, why) in goes {
        assert!(rt; go(rt, shared, seats, *most) == (*steps, *why), "go {most}");
    }
}

/// A program, its limit, the seats, and one `go` after another.
type Row = (&'static [u8], u32, u32, &'static [(u32, u64, Why)], Left);

const ROWS: [Row; 5] = [
    (ADDED, 100, 1, &[(1000, 50, Why::Done)], ADDED_ALL),
    (
        ADDED,
        100,
        4,
        &[
            (0, 0, Why::Limit),
            (7, 7, Why::Limit),
            (1000, 43, Why::Done),
            (1000, 0, Why::Done),
        ],
        ADDED_ALL,
    ),
    (
        ADDED,
        51,
        64,
        &[(50, 50, Why::Limit), (1, 0, Why::Done)],
        ADDED_ALL,
    ),
    (
        ADDED,
        20,
        4,
        &[(1000, 19, Why::Full), (1000, 0, Why::Full)],
        ADDED_IN_PART,
    ),
    (STORED, 100, 4, &[(1000, 5, Why::Done)], STORED_ALL),
];

#[test]
fn workers_stop_where_they_are_to(rt: HostRuntime) {
    for (text, limit, seats, goes, left) in ROWS {
        let live = opened(rt.alloc(), text, limit, seats).expect(&rt, "an accepted program");
        play(&rt, live, Scenario::Go { goes }, &left);
    }
}

/// A breakpoint stops the workers, and a commit before the run goes on is refused.
pub fn stop_at_a_breakpoint<N: Team + Send + Sync, R: Threads + Wait + Abort + AllocGlobal + Sync>(
    rt: &R,
    shared: &Shared<N>,
    seats: &mut [Seat<N>],
) {
    assert!(rt; go(rt, shared, seats, 1000) == (3, Why::Break));
    assert!(rt; !seats.is_empty());
    let seat = &mut seats[0];
    let plan = planned(rt, shared, seat, "0");
    assert_eq!(rt; committed(rt, shared, seat, plan), 109);
    shared.resume(rt);
    let plan = planned(rt, shared, seat, "0");
    assert_eq!(rt; committed(rt, shared, seat, plan), 4);
    assert!(rt; go(rt, shared, seats, 1000) == (1, Why::Done));
}

#[test]
fn a_breakpoint_stops_all_workers(rt: HostRuntime) {
    for seats in [1, 4] {
        let live = opened_to_stop(rt.alloc(), STORED, 2, seats);
        play(
            &rt,
            live.expect(&rt, "a breakpoint"),
            Scenario::Stop,
            &STORED_ALL,
        );
    }
}

/// A journal without a slot takes no rollback.
pub fn fill<N: Team + Send + Sync, R: Threads + Wait + Abort + AllocGlobal + Sync>(
    rt: &R,
    shared: &Shared<N>,
    seats: &mut [Seat<N>],
) {
    assert!(rt; go(rt, shared, seats, 1000) == (19, Why::Full));
    assert!(rt; !seats.is_empty());
    assert_eq!(rt; rolled(rt, shared, &mut seats[0], "0#1"), 102);
}

#[test]
fn a_full_journal_takes_no_rollback(rt: HostRuntime) {
    let live = opened(rt.alloc(), ADDED, 20, 4).expect(&rt, "an accepted program");
    play(&rt, live, Scenario::Fill, &ADDED_IN_PART);
}

/// A task's start is rolled back, and the workers take what went with it again.
pub fn roll_and_go<N: Team + Send + Sync, R: Threads + Wait + Abort + AllocGlobal + Sync>(
    rt: &R,
    shared: &Shared<N>,
    seats: &mut [Seat<N>],
) {
    assert!(rt; go(rt, shared, seats, 1000) == (50, Why::Done));
    assert!(rt; !seats.is_empty());
    let gone = rolled(rt, shared, &mut seats[0], "0.3#1");
    assert!(rt; gone % 5 == 0 && 5 <= gone && gone <= 40);
    assert!(rt; go(rt, shared, seats, 1000) == (gone as u64, Why::Done));
}

/// A hundred runs by eight workers: no slot's cell is taken, and each receipt is in the journal.
#[test]
fn a_hundred_runs_by_eight(rt: HostRuntime) {
    for _round in 0..100u32 {
        let live = opened(rt.alloc(), ADDED, 100, 8).expect(&rt, "an accepted program");
        play(&rt, live, Scenario::RollAndGo, &ADDED_ALL);
    }
}
