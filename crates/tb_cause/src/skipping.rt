//! Where a pass goes on: the stored steps that no key can be of are left out, where the keys are
//! few.

ghost use Rattle.std.specs.Prelude.{◌≡◌, ◌≤◌, nat_eq, true, IfOk, IsTrue, length};
ghost use Rattle.indexmap.specs.IndexSet.{contains};
ghost use Rattle.tb_model.specs.Names.{same_name};
ghost use Rattle.tb_cause.specs.Chains.{AreGivenAt};
ghost use Rattle.tb_cause.specs.Keys.{has};
ghost use Rattle.tb_cause.specs.Skipping.{ArePassed, AreParentsPassed, AreTouchesPassed, HasNoItems, LeavesOut};

use crate::indexed::Indexed;
use crate::keys::Keys;
use indexmap::IndexSet;
use std::alloc::AllocError;
use tb_model::TaskName;

/// An index from `from` on in front of which no stored step asks for one of the keys, which are
/// those of the stored steps at these indexes. Where the keys are few, it is that of the next step
/// of a task, or the next touch of a cell, of which there is one; where the stored step at `from`
/// is known to take one, it isn't looked for.
pub(crate) fn next_taker(
    keys: &Keys,
    indexed: &Indexed<'_>,
    _places: &[u32],
    from: usize,
    is_taken: bool,
) -> Result<usize, AllocError>
    requires from { from ≤ length indexed.now }
    requires given { AreGivenAt indexed.now _places.now (has keys.now) }
    ensures { IfOk result (λ next. LeavesOut (has keys.now) indexed.now from next) }
{
    if is_taken {
        return Ok(from);
    }
    if !are_few(keys) {
        return Ok(from);
    }
    indexed.history_is_legal();
    let next = next_of(&keys.tasks, indexed, from, indexed.len());
    let next = next_of_parents(&keys.within, indexed, from, next)?;
    let next = next_touch(&keys.touched, indexed, from, next);
    Ok(if keys.printed {
        next.min(indexed.next_print(from))
    } else {
        next
    })
}

/// Whether the keys are so few that each is looked up, and none is of a depend item.
fn are_few(keys: &Keys) -> bool
    ensures { IsTrue result → HasNoItems (has keys.now) }
{
    keys.items.is_empty()
        && keys.tasks.len() <= 4
        && keys.within.len() <= 16
        && keys.touched.len() <= 4
}

/// The next step of one of these tasks in front of the end.
fn next_of(set: &IndexSet<TaskName>, indexed: &Indexed<'_>, from: usize, end: usize) -> usize
    requires from { from ≤ end }
    requires end { end ≤ length indexed.now }
    ensures { ArePassed (contains same_name set.now) indexed.now from end result }
{
    let mut next = end;
    for n in 0..set.len() {
        next = next.min(indexed.next_of(&set[n], from));
    }
    next
}

/// The next step of the parent of one of these tasks in front of the end.
fn next_of_parents(
    set: &IndexSet<TaskName>,
    indexed: &Indexed<'_>,
    from: usize,
    end: usize,
) -> Result<usize, AllocError>
    requires from { from ≤ end }
    requires end { end ≤ length indexed.now }
    ensures { IfOk result (λ next. AreParentsPassed (contains same_name set.now) indexed.now from end next) }
{
    let mut next = end;
    for n in 0..set.len() {
        next = next_of_parent(&set[n], indexed, from, next)?;
    }
    Ok(next)
}

/// The next step of the task's parent in front of the end.
fn next_of_parent(
    task: &TaskName,
    indexed: &Indexed<'_>,
    from: usize,
    end: usize,
) -> Result<usize, AllocError>
    requires from { from ≤ end }
    requires end { end ≤ length indexed.now }
    ensures { IfOk result (λ next. AreParentsPassed (same_name task.now) indexed.now from end next) }
{
    match task.parent()? {
        Some(parent) => Ok(end.min(indexed.next_of(&parent, from))),
        None => Ok(end),
    }
}

/// The next touch of one of these cells in front of the end.
fn next_touch(set: &IndexSet<u32>, indexed: &Indexed<'_>, from: usize, end: usize) -> usize
    requires from { from ≤ end }
    requires end { end ≤ length indexed.now }
    ensures { AreTouchesPassed (contains nat_eq set.now) indexed.now from end result }
{
    let mut next = end;
    for n in 0..set.len() {
        next = next.min(indexed.next_touch(set[n], from));
    }
    next
}
