//! Two workers are between a claim and its commit at once.

ghost use Rattle.std.specs.Prelude.{◌<◌, ◌≤◌, length};

use crate::asking::step_all;
use crate::gates::Meeting;
use crate::scenario::{Left, Scenario};
use crate::team::{opened, play};
use crate::withdrawn::SPAWNED;
use std::alloc::AllocGlobal;
use std::process::Abort;
use std::sync::Wait;
use std::thread::Threads;
use tb_work::{Seat, Shared, Team, Why};

pub fn meet<N: Team + Send + Sync, R: Threads + Wait + Abort + AllocGlobal + Sync>(
    rt: &R,
    shared: &Shared<N>,
    seats: &mut [Seat<N>],
) {
    assert_eq!(rt; seats.len(), 2);
    step_all(rt, shared, &mut seats[0], ["0", "0", "0", "0"].as_slice());
    let meeting = Meeting::new();
    match shared.go(rt, seats, 1000, &meeting) {
        Ok(ran) => assert!(rt; ran.steps == 10 && ran.why == Why::Done),
        Err(_) => panic!(rt; "a run"),
    }
    assert!(rt; !meeting.has_given_up());
    assert!(rt; meeting.calls() == (5, 5));
}

/// All work on one thread, one worker that goes on alone, or the lock held from a claim to its
/// commit would hold the other back from the gate.
#[test]
fn both_at_the_gate(rt: HostRuntime) {
    let live = opened(rt.alloc(), SPAWNED, 20, 2).expect(&rt, "an accepted program");
    let left = Left {
        steps: 14,
        entries: Some(15),
        cells: Some(&[1, 2]),
    };
    play(&rt, live, Scenario::Meet, &left);
}
