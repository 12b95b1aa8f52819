//! Memory that is refused to a team: `tools/refuse_memory.py` refuses each allocation in turn.

ghost use Rattle.std.specs.Prelude.{◌<◌, ◌≤◌, length};

use crate::gates::Open;
use crate::goes::{ADDED, ADDED_ALL};
use crate::scenario::{Left, Scenario};
use crate::team::{opened, play};
use std::alloc::AllocGlobal;
use std::process::Abort;
use std::sync::Wait;
use std::thread::Threads;
use tb_live::RollRefusal;
use tb_model::StepId;
use tb_work::{GoRefusal, Refused, Seat, Shared, Team, Why};

/// How many steps the workers take before all have ended. A worker that finds no memory ends, and
/// the steps that were executed stay.
fn go_on<N: Team + Send + Sync, R: Threads + Wait + Abort + Sync>(
    rt: &R,
    shared: &Shared<N>,
    seats: &mut [Seat<N>],
) {
    for _attempt in 0..2u32 {
        assert!(rt; !seats.is_empty() && seats.len() <= 65);
        match shared.go(rt, seats, 1000, &Open) {
            Ok(ran) => {
                assert!(rt; ran.why == Why::Done);
                return;
            }
            Err(refusal) => assert!(rt; refusal == GoRefusal::Memory),
        }
    }
    panic!(rt; "memory is there again");
}

/// How many steps go. A refusal leaves the seat as it was.
fn roll_back<N: Team, R: Wait + Abort + AllocGlobal>(
    rt: &R,
    shared: &Shared<N>,
    seat: &mut Seat<N>,
) -> usize {
    let id = StepId::parse(rt.alloc(), b"0.3#1").expect(rt, "a step");
    let count = seat.len();
    for _attempt in 0..2u32 {
        match shared.roll(rt, seat, &id) {
            Ok(removed) => return removed.len(),
            Err(
                Refused::Run {
                    refusal: RollRefusal::Memory,
                },
            ) => assert_eq!(rt; seat.len(), count),
            Err(_) => panic!(rt; "a rollback"),
        }
    }
    panic!(rt; "memory is there again")
}

/// Eight tasks, a rollback, and what went with it once more.
pub fn go_and_roll_again<N: Team + Send + Sync, R: Threads + Wait + Abort + AllocGlobal + Sync>(
    rt: &R,
    shared: &Shared<N>,
    seats: &mut [Seat<N>],
) {
    go_on(rt, shared, seats);
    assert!(rt; !seats.is_empty());
    let gone = roll_back(rt, shared, &mut seats[0]);
    assert!(rt; gone % 5 == 0 && 5 <= gone && gone <= 40);
    go_on(rt, shared, seats);
}

#[test]
fn a_refused_growth_leaves_receipts_and_journal(rt: HostRuntime) {
    let live = match opened(rt.alloc(), ADDED, 150, 3) {
        Some(live) => live,
        None => opened(rt.alloc(), ADDED, 150, 3).expect(&rt, "memory is there again"),
    };
    play(&rt, live, Scenario::Retry, &ADDED_ALL);
}
