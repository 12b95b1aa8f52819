//! What needs what, against a scan of all pairs of steps.

ghost use Rattle.std.specs.Prelude.{◌<◌, ◌≤◌, length};

use std::alloc::AllocGlobal;
use std::mem;
use std::process::Abort;
use tb_cause::{needed_by, needs};
use tb_core::{Core, History, needs as needs_step, step_at};
use tb_model::StepId;

/// The indexes of a history of at most 64 steps, marked or not.
type Marks = [bool; 64];

/// Whether a marked step after this index needs the one there.
fn is_needed(entries: &History<'_>, marks: &Marks, earlier: usize) -> bool
    requires here { earlier < length entries.now }
    requires few { length entries.now ≤ 64 }
{
    for later in earlier + 1..entries.len() {
        if marks[later] && needs_step(entries, later, earlier) {
            return true;
        }
    }
    false
}

/// Whether the step at this index needs a marked one in front of it.
fn needs_marked(entries: &History<'_>, marks: &Marks, later: usize) -> bool
    requires here { later < length entries.now }
    requires few { length entries.now ≤ 64 }
{
    for earlier in 0..later {
        if marks[earlier] && needs_step(entries, later, earlier) {
            return true;
        }
    }
    false
}

/// Asserts that the found steps are exactly the marked ones but that at the index, in the order of
/// the history.
fn compare(
    rt: &(impl Abort + AllocGlobal),
    entries: &History<'_>,
    marks: &Marks,
    at: usize,
    found: &[StepId],
)
    requires few { length entries.now ≤ 64 }
{
    let mut next = 0;
    for place in 0..entries.len() {
        if marks[place] && place != at {
            let id = step_at(entries, place).expect(rt, "memory is there");
            assert!(rt; next < found.len() && found[next] == id);
            mem::forget(id);
            next += 1;
        }
    }
    assert_eq!(rt; next, found.len());
}

/// What needs the step at the index is what a scan finds.
fn compare_needers(
    rt: &(impl Abort + AllocGlobal),
    core: &Core,
    entries: &History<'_>,
    at: usize,
    id: &StepId,
)
    requires here { at < length entries.now }
    requires few { length entries.now ≤ 64 }
{
    let mut marks = [false; 64];
    marks[at] = true;
    for later in at + 1..entries.len() {
        marks[later] = needs_marked(entries, &marks, later);
    }
    let found = needed_by(rt.alloc(), core, id).expect(rt, "memory is there");
    compare(rt, entries, &marks, at, found.as_slice());
    mem::forget(found);
}

/// What the step at the index needs is what a scan finds.
fn compare_causes(
    rt: &(impl Abort + AllocGlobal),
    core: &Core,
    entries: &History<'_>,
    at: usize,
    id: &StepId,
)
    requires here { at < length entries.now }
    requires few { length entries.now ≤ 64 }
{
    let mut marks = [false; 64];
    marks[at] = true;
    for earlier in (0..at).rev() {
        marks[earlier] = is_needed(entries, &marks, earlier);
    }
    let found = needs(rt.alloc(), core, id).expect(rt, "memory is there");
    compare(rt, entries, &marks, at, found.as_slice());
    mem::forget(found);
}

/// The needs and the needers of each step are those that a scan finds.
pub fn compare_all(rt: &(impl Abort + AllocGlobal), core: &Core) {
    let entries = core.legal_entries();
    assert!(rt; entries.len() <= 64);
    for at in 0..entries.len() {
        let id = step_at(&entries, at).expect(rt, "memory is there");
        compare_needers(rt, core, &entries, at, &id);
        compare_causes(rt, core, &entries, at, &id);
        mem::forget(id);
    }
}
