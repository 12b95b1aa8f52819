//! The least child of a task that isn't over and passes a test, by a walk over those that aren't.

ghost use Rattle.std.specs.Prelude.{◌≡◌};
ghost use Rattle.tb_depend.specs.Relations.{depends, is_covered};
ghost use Rattle.tb_depend.specs.Nearness.{IsClosed};
ghost use Rattle.tb_excl.specs.Holders.{IsLeastNumber};
ghost use Rattle.tb_undo.specs.Tasks.{seen_row};
ghost use Rattle.tb_undo.specs.Obstacles.{IsUnendedWhere, is_child_over, is_first};

use crate::over::ChildrenOver;
use crate::row::Row;
use tb_depend::Siblings;
use tb_model::{Item, TaskName};
use tb_wait::Wait;

/// Whether the newest of the task's steps generated an undeferred child.
#[inline(always)]
pub fn is_held(row: &Row) -> bool
    ensures { result ≡ is_first row.now.steps (seen_row row.now).undeferred }
{
    row.undeferred.is_newest(row.steps)
}

/// The least of the parent's children that isn't over and on which the nth depends. Whether there
/// is one is asked of its nearest ones alone; only its ordinal costs a walk.
pub fn next_before(waits: &Wait, siblings: &Siblings, parent: &TaskName, n: u32) -> Option<u32>
    ensures { IsClosed siblings.now.siblings (is_child_over waits.now.tasks parent.now) →
        IsLeastNumber (IsUnendedWhere waits.now.tasks parent.now (depends siblings.now.siblings n)) result }
{
    if siblings.are_preds_over(n as usize, &ChildrenOver { waits, parent }) {
        return None;
    }
    let mut low = 0;
    'walk: while let Some(m) = waits.next_unended(parent, low) {
        if m >= n {
            return None;
        }
        if siblings.is_before(m as usize, n as usize) {
            return Some(m);
        }
        low = m;
    }
    None
}

/// The least of the task's children that isn't over and for which a `taskwait` with these items
/// waits. With items, whether there is one is asked of those alone that would be nearest to a
/// further child; only its ordinal costs a walk.
pub fn next_covered(
    waits: &Wait,
    children: &Siblings,
    task: &TaskName,
    items: &[Item],
) -> Option<u32>
    ensures { IsClosed children.now.siblings (is_child_over waits.now.tasks task.now) →
        IsLeastNumber (IsUnendedWhere waits.now.tasks task.now (is_covered children.now.siblings items.now)) result }
{
    let over = ChildrenOver {
        waits,
        parent: task,
    };
    if !items.is_empty() && children.are_over_for(items, &over) {
        return None;
    }
    let mut low = 0;
    'walk: while let Some(m) = waits.next_unended(task, low) {
        if children.covers(items, m as usize) {
            return Some(m);
        }
        low = m;
    }
    None
}
