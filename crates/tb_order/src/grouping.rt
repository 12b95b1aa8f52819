//! Where a taskgroup was opened.

ghost use Rattle.std.specs.Prelude.{◌≡◌, ◌<◌, ◌≤◌, ℕ, Bool, length, take, slice_get, IsTrue, Some, false};
ghost use Rattle.tb_steps.specs.Entries.{Entry};
ghost use Rattle.tb_steps.specs.Scans.{AreLegal, history_of};
ghost use Rattle.tb_model.specs.Facts.{IsSpawned, is_member, own};
ghost use Rattle.tb_model.specs.Names.{Name};
ghost use Rattle.tb_lanes.specs.Clocks.{AreTasks, IsEnd, links_at};
ghost use Rattle.tb_lanes.specs.Linking.{order_of};

use tb_core::History;
use tb_lanes::{Tasks, step_before};
use tb_model::Action;

/// An index in front of which there is no end to which the step is linked: that of the end of a
/// taskgroup is where the task went on in the group, that of others 0.
pub fn first_asked(entries: &History<'_>, tasks: &Tasks, at: usize) -> usize
    requires legal { AreLegal entries.now }
    requires tasks { AreTasks entries.now tasks.now }
    requires at { at < length entries.now }
    ensures { (exclusion : Bool) (x : ℕ) → IsEnd entries.now at x
        → IsTrue (links_at (order_of exclusion) entries.now at x) → result ≤ x }
{
    match entries.action(at) {
        Action::Close => opened(entries, tasks, at),
        _ => 0,
    }
}

/// The index of the first step of the task in the innermost group that it has open, or of its first
/// step where none is.
fn opened(entries: &History<'_>, tasks: &Tasks, at: usize) -> usize
    requires legal { AreLegal entries.now }
    requires tasks { AreTasks entries.now tasks.now }
    requires at { at < length entries.now }
    ensures within { result ≤ at }
    ensures none { (v : Entry) → slice_get entries.now at ≡ Some v → (m : Name)
        → IsSpawned (history_of (take result entries.now)) m
        → is_member (own v.event.task (history_of (take at entries.now))) m ≡ false }
{
    let mut place = at;
    let mut closed = 0_usize;
    'back: while let Some(before) = step_before(tasks, place) {
        match entries.action(before) {
            Action::Open => {
                if closed == 0 {
                    return place;
                }
                closed -= 1;
            }
            Action::Close => closed += 1,
            _ => {}
        }
        place = before;
    }
    place
}
