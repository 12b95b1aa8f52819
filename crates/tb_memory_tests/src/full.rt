//! Steps at a full journal. Want of memory comes last there: a refusal that names a task may want
//! memory, and Full none.

use crate::run::{opened_for, take};
use std::alloc::AllocGlobal;
use std::mem;
use std::process::Abort;
use tb_live::{Live, StepRefusal};
use tb_model::TaskName;

/// What the root does next takes memory to be evaluated.
const SPAWNS: &[u8] =
    b"cells 2\nbody main 0\ntask a 1 2 depend in 0 depend out 1\nend\nbody a 2\nend\n";

const WAITS: &[u8] =
    b"cells 2\nbody main 0\ntask a depend out 0\ntaskwait depend in 1 depend in 0\nend\n\
    body a 0\nend\n";

/// The answer of a step of the root, and whether the least task that can step is refused as Full.
fn answers(rt: &(impl Abort + AllocGlobal), live: &mut Live) -> (u8, bool) {
    let root = TaskName::root(rt.alloc());
    let number = match live.step(&root) {
        Ok(_) => 100,
        Err(refusal) => refusal.number(),
    };
    (number, matches!(live.step_least(), Err(StepRefusal::Full)))
}

#[test]
fn refused_growth_of_a_spawn_at_a_full_journal(rt: HostRuntime) {
    let mut live = opened_for(&rt, SPAWNS, 2);
    take(&rt, &mut live, "0");
    assert!(rt; answers(&rt, &mut live) == (7, true));
    mem::forget(live);
}

#[test]
fn refused_growth_of_a_wait_at_a_full_journal(rt: HostRuntime) {
    let mut live = opened_for(&rt, WAITS, 3);
    take(&rt, &mut live, "0");
    take(&rt, &mut live, "0");
    let (number, full) = answers(&rt, &mut live);
    assert!(rt; number == 5 || number == 0);
    assert!(rt; full);
    mem::forget(live);
}

#[test]
fn refused_growth_of_a_passed_wait_at_a_full_journal(rt: HostRuntime) {
    let mut live = opened_for(&rt, WAITS, 5);
    for name in ["0", "0", "0.1", "0.1"] {
        take(&rt, &mut live, name);
    }
    assert!(rt; answers(&rt, &mut live) == (7, true));
    mem::forget(live);
}
