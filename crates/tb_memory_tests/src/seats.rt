//! Claims, commits, rollbacks and lists of moves.

ghost use Rattle.std.specs.Prelude.{◌≤◌, ◌<◌};

use crate::run::{opened, step, take_all, task};
use std::alloc::AllocGlobal;
use std::mem;
use std::process::Abort;
use tb_live::{
    Answer, Break, BreakRefusal, Claim, ClaimRefusal, CommitRefusal, Live, Move, RollRefusal,
    StepRefusal, Work,
};
use tb_model::{StepId, TaskName};
use tb_plan::{Plan, plan};

fn planned(rt: &(impl Abort + AllocGlobal), work: &Work) -> Plan {
    assert!(rt; work.instr.line == work.config.at);
    let plan = again!(rt; plan(rt.alloc(), &work.instr, &work.config), _, true);
    plan.expect(rt, "memory is there again")
}

/// The plan of the task, which the seat claims then.
fn claim_one(rt: &(impl Abort + AllocGlobal), live: &mut Live, seat: u32, name: &TaskName) -> Plan {
    assert!(rt; seat < live.seats());
    let claimed = again!(
        rt;
        live.claim_task(seat, name),
        ClaimRefusal::Memory,
        live.claim_of(seat).is_none()
    );
    match claimed {
        Ok(work) => planned(rt, &work),
        Err(_) => panic!(rt; "work"),
    }
}

/// The plan of the least task that can step, which the seat claims then.
fn claim_least(rt: &(impl Abort + AllocGlobal), live: &mut Live, seat: u32) -> Plan {
    assert!(rt; seat < live.seats());
    let claimed = again!(rt; live.claim(seat), _, live.claim_of(seat).is_none());
    match claimed {
        Ok(Claim::Work(work)) => planned(rt, &work),
        _ => panic!(rt; "work"),
    }
}

/// Commits the plan, which takes no memory once it is prepared.
fn commit(rt: &(impl Abort + AllocGlobal), live: &mut Live, seat: u32, plan: Plan) {
    let place = live.journal().len();
    let prepared = again!(
        rt;
        live.prepare(seat, &plan),
        CommitRefusal::Step {
            refusal: StepRefusal::Memory
        },
        live.journal().len() == place && live.claim_of(seat).is_some()
    );
    assert!(rt; prepared.is_ok());
    match live.commit(seat, plan) {
        Ok(found) => assert_eq!(rt; found as usize, place),
        Err(_) => panic!(rt; "a commit"),
    }
}

/// How many steps go.
fn roll_back(
    rt: &(impl Abort + AllocGlobal),
    live: &mut Live,
    id: &StepId,
    prepares: bool,
) -> usize {
    let (count, place) = (live.core().count(), live.journal().len());
    if prepares {
        let prepared = again!(
            rt;
            live.prepare_roll(2, id),
            RollRefusal::Memory,
            live.core().count() == count
        );
        assert!(rt; prepared.is_ok());
    }
    let removed = again!(
        rt;
        live.roll(2, id),
        RollRefusal::Memory,
        !prepares && live.core().count() == count && live.journal().len() == place
    );
    removed.expect(rt, "a rollback").len()
}

fn commit_and_roll(rt: &(impl Abort + AllocGlobal), live: &mut Live) {
    for (prepares, count) in [(true, 1), (false, 2)] {
        let plan = claim_one(rt, live, 1, &task(rt, "0.3"));
        commit(rt, live, 1, plan);
        let plan = claim_least(rt, live, 2);
        commit(rt, live, 2, plan);
        let gone = roll_back(rt, live, &step(rt, "0.3#1"), prepares);
        assert_eq!(rt; gone, count);
    }
}

#[test]
fn a_refused_growth_keeps_claims_and_journal(rt: HostRuntime) {
    let mut live = opened(&rt);
    take_all(&rt, &mut live);
    commit_and_roll(&rt, &mut live);
    assert_eq!(rt; live.journal().len(), 20);
    mem::forget(live);
}

/// The code of the answer to the one move, and 100 where it is made.
fn answer_of(answers: &[Answer]) -> u32 {
    match answers {
        [Answer::Step(Err(refusal))] => u32::from(refusal.number()),
        [Answer::Undo(Err(refusal))] => u32::from(refusal.number()),
        [Answer::Roll(Err(refusal))] => u32::from(refusal.number()),
        [_] => 100,
        _ => 101,
    }
}

/// Makes one move, once more where that was refused for memory.
fn make(rt: &(impl Abort + AllocGlobal), live: &mut Live, one: &[Move]) {
    let place = live.journal().len();
    let answers = again!(rt; live.run(one), _, live.journal().len() == place);
    let number = answer_of(answers.expect(rt, "memory is there again").as_slice());
    if number == 0 {
        assert_eq!(rt; live.journal().len(), place);
        let answers = live.run(one).expect(rt, "memory is there again");
        assert_eq!(rt; answer_of(answers.as_slice()), 100);
    } else {
        assert_eq!(rt; number, 100);
    }
}

#[test]
fn a_refused_growth_is_the_answer_to_a_move(rt: HostRuntime) {
    let mut live = opened(&rt);
    take_all(&rt, &mut live);
    make(&rt, &mut live, [Move::Step(task(&rt, "0.3"))].as_slice());
    make(&rt, &mut live, [Move::Undo(step(&rt, "0.3#1"))].as_slice());
    make(&rt, &mut live, [Move::Roll(step(&rt, "0#2"))].as_slice());
    assert_eq!(rt; live.journal().len(), 17);
    mem::forget(live);
}

/// A refused breakpoint uses up no number.
fn add_breaks(rt: &(impl Abort + AllocGlobal), live: &mut Live) {
    for number in 1..6u32 {
        let count = live.breakpoints().len();
        let made = again!(
            rt;
            live.add_break(Break::Task(task(rt, "0.1"))),
            BreakRefusal::Memory,
            live.breakpoints().len() == count
        );
        assert!(rt; made == Ok(number));
    }
}

#[test]
fn a_refused_growth_uses_up_no_number(rt: HostRuntime) {
    let mut live = opened(&rt);
    add_breaks(&rt, &mut live);
    mem::forget(live);
}
