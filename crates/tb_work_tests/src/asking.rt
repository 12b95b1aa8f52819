//! What a seat asks of a run, with the answers as numbers.

use std::alloc::AllocGlobal;
use std::process::Abort;
use std::sync::Wait;
use tb_live::{Claim, Work};
use tb_model::{StepId, TaskName};
use tb_plan::{Plan, plan, plan_burst};
use tb_work::{Refused, Seat, Shared, Team};

fn task(rt: &(impl Abort + AllocGlobal), text: &str) -> TaskName {
    TaskName::parse(rt.alloc(), text.as_bytes()).expect(rt, text)
}

fn step(rt: &(impl Abort + AllocGlobal), text: &str) -> StepId {
    StepId::parse(rt.alloc(), text.as_bytes()).expect(rt, text)
}

fn evaluated(rt: &(impl Abort + AllocGlobal), work: &Work) -> Plan {
    assert!(rt; work.instr.line == work.config.at);
    plan(rt.alloc(), &work.instr, &work.config).expect(rt, "a plan")
}

/// The plan of the task, which the seat claims then.
pub fn planned<N: Team, R: Wait + Abort + AllocGlobal>(
    rt: &R,
    shared: &Shared<N>,
    seat: &Seat<N>,
    name: &str,
) -> Plan {
    match shared.claim_task(rt, seat, &task(rt, name)) {
        Ok(work) => evaluated(rt, &work),
        Err(_) => panic!(rt; "a claim on {name}"),
    }
}

/// The plan of the least task that no other seat claims. It is at this line.
pub fn planned_at<N: Team, R: Wait + Abort + AllocGlobal>(
    rt: &R,
    shared: &Shared<N>,
    seat: &Seat<N>,
    line: u32,
) -> Plan {
    match shared.claim(rt, seat) {
        Ok(Claim::Work(work)) => {
            assert_eq!(rt; work.config.at, line);
            evaluated(rt, &work)
        }
        _ => panic!(rt; "work at {line}"),
    }
}

/// The plans of a burst of the least task that no other seat claims.
pub fn burst_planned<N: Team, R: Wait + Abort + AllocGlobal>(
    rt: &R,
    shared: &Shared<N>,
    seat: &Seat<N>,
) -> Vec<Plan> {
    match shared.claim(rt, seat) {
        Ok(Claim::Work(work)) => {
            assert!(rt; work.instr.line == work.config.at);
            plan_burst(rt.alloc(), &work.instr, &work.strip, &work.config).expect(rt, "plans")
        }
        _ => panic!(rt; "work"),
    }
}

/// How many plans were committed, and the code of the refusal, or 0.
pub fn burst_committed<N: Team, R: Wait>(
    rt: &R,
    shared: &Shared<N>,
    seat: &mut Seat<N>,
    plans: Vec<Plan>,
) -> (u32, u32) {
    let burst = shared.commit_burst(rt, seat, plans);
    let refusal = match &burst.refusal {
        None => 0,
        Some(Refused::CellTaken) => 11,
        Some(Refused::Run { refusal }) => u32::from(refusal.number()),
    };
    (burst.taken, refusal)
}

/// The slot of the entry, or 100 more than the code of the refusal.
pub fn committed<N: Team, R: Wait>(
    rt: &R,
    shared: &Shared<N>,
    seat: &mut Seat<N>,
    plan: Plan,
) -> u32 {
    match shared.commit(rt, seat, plan) {
        Ok(place) => place,
        Err(Refused::CellTaken) => 111,
        Err(Refused::Run { refusal }) => 100 + u32::from(refusal.number()),
    }
}

/// How many steps go, or 100 more than the code of the refusal.
pub fn rolled<N: Team, R: Wait + Abort + AllocGlobal>(
    rt: &R,
    shared: &Shared<N>,
    seat: &mut Seat<N>,
    id: &str,
) -> usize {
    match shared.roll(rt, seat, &step(rt, id)) {
        Ok(removed) => removed.len(),
        Err(Refused::CellTaken) => 111,
        Err(Refused::Run { refusal }) => 100 + usize::from(refusal.number()),
    }
}

/// 1 where the step goes, or 100 more than the code of the refusal.
pub fn undone<N: Team, R: Wait + Abort + AllocGlobal>(
    rt: &R,
    shared: &Shared<N>,
    seat: &mut Seat<N>,
    id: &str,
) -> u32 {
    match shared.undo(rt, seat, &step(rt, id)) {
        Ok(_) => 1,
        Err(Refused::CellTaken) => 111,
        Err(Refused::Run { refusal }) => 100 + u32::from(refusal.number()),
    }
}

/// Steps of the tasks for the seat, one after another.
pub fn step_all<N: Team, R: Wait + Abort + AllocGlobal>(
    rt: &R,
    shared: &Shared<N>,
    seat: &mut Seat<N>,
    names: &[&str],
) {
    for name in names {
        let plan = planned(rt, shared, seat, *name);
        assert!(rt; committed(rt, shared, seat, plan) < 100, "{name}");
    }
}
