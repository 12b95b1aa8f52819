//! Needs, races and rollbacks of a core.

use crate::run::{opened, step, take_all};
use std::alloc::AllocGlobal;
use std::mem;
use std::process::Abort;
use tb_cause::{CauseRefusal, needed_by, needs};
use tb_core::Core;
use tb_order::{causes, edges, races};
use tb_roll::{RollRefusal, ready, same_run};

/// A step, how many steps need it, how many it needs, and how many of these at once.
const NEEDS: [(&str, usize, usize, usize); 3] = [
    ("0.1#2", 3, 3, 1),
    ("0.2#3", 1, 7, 2),
    ("0#3", 7, 2, 1),
];

fn ask(rt: &(impl Abort + AllocGlobal), core: &Core, row: &(&str, usize, usize, usize)) {
    let id = step(rt, row.0);
    let later = again!(rt; needed_by(rt.alloc(), core, &id), CauseRefusal::Memory, true);
    assert_eq!(rt; later.expect(rt, row.0).len(), row.1, "{}", row.0);
    let earlier = again!(rt; needs(rt.alloc(), core, &id), CauseRefusal::Memory, true);
    assert_eq!(rt; earlier.expect(rt, row.0).len(), row.2, "{}", row.0);
    let at_once = again!(rt; causes(rt.alloc(), core, &id), CauseRefusal::Memory, true);
    assert_eq!(rt; at_once.expect(rt, row.0).len(), row.3, "{}", row.0);
    let prepared = again!(rt; ready(rt.alloc(), core, &id), RollRefusal::Memory, true);
    assert_eq!(rt;
        prepared.expect(rt, row.0).steps_to_remove().len(),
        row.1 + 1
    );
}

fn compare(rt: &(impl Abort + AllocGlobal), core: &Core) {
    let raced = again!(rt; races(rt.alloc(), core), _, true);
    assert_eq!(rt; raced.expect(rt, "memory is there again").len(), 1);
    let needed = again!(rt; edges(rt.alloc(), core), _, true);
    assert_eq!(rt; needed.expect(rt, "memory is there again").len(), 13);
    let same = again!(rt; same_run(rt.alloc(), core, core), _, true);
    assert!(rt; same == Ok(true));
}

#[test]
fn a_refused_growth_leaves_each_answer(rt: HostRuntime) {
    let mut live = opened(&rt);
    take_all(&rt, &mut live);
    for row in &NEEDS {
        ask(&rt, live.core(), row);
    }
    compare(&rt, live.core());
    mem::forget(live);
}
