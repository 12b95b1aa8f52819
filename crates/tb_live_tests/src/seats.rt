//! Claims of several seats, and pauses.

ghost use Rattle.std.specs.Prelude.{◌≤◌};

use std::alloc::{AllocGlobal, Global};
use std::mem;
use std::process::Abort;
use tb_live::{Break, Claim, Live, Mode, Offer, PausedBy, Work};
use tb_model::{StepId, TaskName};
use tb_read::read;

pub fn opened(alloc: Global, text: &[u8]) -> Option<Live> {
    let program = match read(alloc, text) {
        Ok(program) => program,
        Err(_) => return None,
    };
    match Live::open(alloc, program, 20, 65) {
        Ok(live) => Some(live),
        Err(_) => None,
    }
}

pub fn task(rt: &(impl Abort + AllocGlobal), text: &str) -> TaskName {
    TaskName::parse(rt.alloc(), text.as_bytes()).expect(rt, text)
}

/// The breakpoint that the words name.
fn at(rt: &(impl Abort + AllocGlobal), words: &[&str]) -> Break {
    match words {
        ["task", name] => Break::Task(task(rt, *name)),
        ["cell", cell] => Break::Cell(cell.parse().expect(rt, "a cell")),
        ["body", line] => Break::Body(line.parse().expect(rt, "a line")),
        ["print"] => Break::Print,
        ["fault"] => Break::Fault,
        _ => panic!(rt; "a breakpoint"),
    }
}

/// The number of a breakpoint that is made, and 100 more than that of a refusal.
fn made(live: &mut Live, at: Break) -> u32 {
    match live.add_break(at) {
        Ok(number) => number,
        Err(refusal) => 100 + refusal.number() as u32,
    }
}

/// The code of the refusal, and 100 where the breakpoint is taken away.
fn cleared(live: &mut Live, number: u32) -> u8 {
    match live.clear_break(number) {
        Ok(_) => 100,
        Err(refusal) => refusal.number(),
    }
}

/// Steps for seat 1 until the run pauses: how many they are.
fn run_on(rt: &(impl Abort + AllocGlobal), live: &mut Live) -> u32 {
    for count in 0..20u32 {
        if live.mode().is_paused() {
            return count;
        }
        let taken = live.step_least_for(1);
        let is_taken = matches!(&taken, Ok(Some(_)));
        mem::forget(taken);
        if !is_taken {
            return count;
        }
    }
    panic!(rt; "the run goes on")
}

const PRINTED: &[u8] = b"cells 1\nbody main 0\n  store 0 7\n  print 7\nend\n";

/// What is asked for, and the answer.
const BREAKS: [(&[&str], u32); 5] = [
    (&["cell", "1"], 104),
    (&["body", "3"], 103),
    (&["task", "0.1"], 1),
    (&["body", "2"], 2),
    (&["print"], 3),
];

fn make_and_clear(rt: &(impl Abort + AllocGlobal), live: &mut Live) {
    for (words, answer) in BREAKS {
        assert_eq!(rt; made(live, at(rt, words)), answer);
    }
    assert_eq!(rt; cleared(live, 1), 100);
    assert_eq!(rt; cleared(live, 1), 2);
}

/// How many steps are asked for, how many are executed, and what paused after them.
const PAUSES: [(Option<u32>, u32, PausedBy); 3] = [
    (None, 1, PausedBy::Break { number: 2 }),
    (Some(2), 2, PausedBy::Break { number: 3 }),
    (Some(1), 1, PausedBy::Count),
];

fn run_and_pause(rt: &(impl Abort + AllocGlobal), live: &mut Live) {
    for (count, steps, by) in PAUSES {
        if let Some(count) = count {
            live.resume_for(count);
        }
        assert_eq!(rt; run_on(rt, live), steps);
        assert!(rt; live.mode() == Mode::Paused { by });
    }
}

fn pause_twice(rt: &(impl Abort + AllocGlobal), live: &mut Live) {
    live.pause();
    assert!(rt;
        live.mode()
            == Mode::Paused {
                by: PausedBy::Count
            }
    );
    live.resume();
    live.pause();
    assert!(rt;
        live.mode()
            == Mode::Paused {
                by: PausedBy::Pause
            }
    );
}

#[test]
fn a_breakpoint_pauses(rt: HostRuntime) {
    let mut live = opened(rt.alloc(), PRINTED).expect(&rt, "an accepted program");
    make_and_clear(&rt, &mut live);
    run_and_pause(&rt, &mut live);
    pause_twice(&rt, &mut live);
    mem::forget(live);
}

pub const SPAWNED: &[u8] = b"cells 2\nbody main 0\n  task u 0\n  task u 1\nend\nbody u 1\n\
    let r1 r0 + 1\n  store r0 r1\n  load r2 r0\nend\n";

/// The line of the statement to be executed.
fn line_of(work: Work) -> u32 {
    let line = work.config.at;
    mem::forget(work);
    line
}

/// The line at which the seat gets work, 101 for Later, 102 for Done and 103 for Stopped.
fn claimed(rt: &(impl Abort + AllocGlobal), live: &mut Live, seat: u32) -> u32 {
    assert!(rt; seat < live.seats());
    match live.claim(seat) {
        Ok(Claim::Work(work)) => line_of(work),
        Ok(Claim::Later) => 101,
        Ok(Claim::Done) => 102,
        Ok(Claim::Stopped) => 103,
        Err(_) => 104,
    }
}

/// The line at which the seat is offered a task, and else what `claimed` says.
fn offered(rt: &(impl Abort + AllocGlobal), live: &mut Live, seat: u32) -> u32 {
    assert!(rt; seat < live.seats());
    match live.offer(seat) {
        Ok(Offer::Task(task)) => {
            let line = task.config.at;
            mem::forget(task);
            line
        }
        Ok(Offer::Later) => 101,
        Ok(Offer::Done) => 102,
        Ok(Offer::Stopped) => 103,
        Err(_) => 104,
    }
}

/// The line at which the task is, or 100 more than the code of the refusal.
pub fn asked(rt: &(impl Abort + AllocGlobal), live: &mut Live, seat: u32, name: &str) -> u32 {
    assert!(rt; seat < live.seats());
    let task = task(rt, name);
    let claimed = live.claim_task(seat, &task);
    mem::forget(task);
    match claimed {
        Ok(work) => line_of(work),
        Err(refusal) => {
            let number = refusal.number();
            mem::forget(refusal);
            100 + u32::from(number)
        }
    }
}

fn has_claim(live: &Live, seat: u32) -> bool {
    live.claim_of(seat).is_some()
}

/// Whether the step of the task for seat 0 was taken.
fn is_taken(rt: &(impl Abort + AllocGlobal), live: &mut Live, name: &str) -> bool {
    let task = task(rt, name);
    let taken = live.step(&task);
    let is_taken = taken.is_ok();
    mem::forget(taken);
    mem::forget(task);
    is_taken
}

/// Steps of the tasks for seat 0, one after another.
pub fn step_all(rt: &(impl Abort + AllocGlobal), live: &mut Live, names: &[&str]) {
    for name in names {
        assert!(rt; is_taken(rt, live, name), "{name}");
    }
}

/// How many steps go with this one, and 100 where the rollback is refused.
pub fn gone(rt: &(impl Abort + AllocGlobal), live: &mut Live, id: &str) -> usize {
    let id = StepId::parse(rt.alloc(), id.as_bytes()).expect(rt, "a step");
    let count = match live.roll(0, &id) {
        Ok(removed) => {
            let count = removed.len();
            mem::forget(removed);
            count
        }
        Err(refusal) => {
            mem::forget(refusal);
            100
        }
    };
    mem::forget(id);
    count
}

/// The seats that claim, and the answers; `claim` where no task is named, else `claim_task`.
type Claims<'a> = &'a [(u32, &'a str, u32)];

fn claim_all(rt: &(impl Abort + AllocGlobal), live: &mut Live, rows: Claims) {
    for (seat, name, answer) in rows {
        let got = if name.is_empty() {
            claimed(rt, live, *seat)
        } else {
            asked(rt, live, *seat, *name)
        };
        assert_eq!(rt; got, *answer, "{seat} {name}");
    }
}

fn claim_in_turn(rt: &(impl Abort + AllocGlobal), live: &mut Live) {
    claim_all(
        rt,
        live,
        [(1, "", 2), (2, "", 101), (2, "0", 112), (2, "0.1", 101)].as_slice(),
    );
    step_all(rt, live, ["0", "0", "0", "0"].as_slice());
    assert!(rt; !has_claim(live, 1));
    claim_all(
        rt,
        live,
        [(0, "0", 102), (1, "", 6), (2, "", 6), (3, "", 101)].as_slice(),
    );
    assert_eq!(rt; offered(rt, live, 1), 6);
    assert_eq!(rt; offered(rt, live, 3), 101);
}

fn claim_while_paused(rt: &(impl Abort + AllocGlobal), live: &mut Live) {
    live.pause();
    claim_all(rt, live, [(1, "", 103)].as_slice());
    assert!(rt; !has_claim(live, 1));
    claim_all(rt, live, [(1, "0.1", 6)].as_slice());
    live.withdraw_all();
    assert!(rt; !has_claim(live, 1));
    assert!(rt; !has_claim(live, 2));
}

#[test]
fn each_seat_has_its_task(rt: HostRuntime) {
    let mut live = opened(rt.alloc(), SPAWNED).expect(&rt, "an accepted program");
    claim_in_turn(&rt, &mut live);
    claim_while_paused(&rt, &mut live);
    mem::forget(live);
}

fn roll_a_claimed_task(rt: &(impl Abort + AllocGlobal), live: &mut Live) {
    step_all(rt, live, ["0", "0", "0", "0", "0.1"].as_slice());
    claim_all(rt, live, [(1, "0.1", 7), (2, "0.2", 6)].as_slice());
    assert_eq!(rt; gone(rt, live, "0.1#1"), 1);
    assert!(rt; !has_claim(live, 1));
    assert!(rt; has_claim(live, 2));
}

fn roll_claimed_spawns(rt: &(impl Abort + AllocGlobal), live: &mut Live) {
    claim_all(rt, live, [(1, "0.1", 6)].as_slice());
    assert_eq!(rt; gone(rt, live, "0#2"), 3);
    assert!(rt; !has_claim(live, 1));
    assert!(rt; !has_claim(live, 2));
}

/// A rollback withdraws the claim on a task of which it removes a step, and on one that it leaves
/// without its spawn, and no other.
#[test]
fn a_rollback_withdraws_claims(rt: HostRuntime) {
    let mut live = opened(rt.alloc(), SPAWNED).expect(&rt, "an accepted program");
    roll_a_claimed_task(&rt, &mut live);
    roll_claimed_spawns(&rt, &mut live);
    mem::forget(live);
}
