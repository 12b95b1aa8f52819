//! How many steps each task has executed, along a history.

ghost use Rattle.std.specs.Prelude.{◌≡◌, ◌<◌, IfOk, IsTrue, OnOk, Some, slice_get, suc};
ghost use Rattle.std.specs.Map.{keys_of};
ghost use Rattle.tb_view.specs.Steps.{count_of, IsCounted};

use indexmap::IndexMap;
use std::alloc::AllocError;
use tb_model::TaskName;

/// Counts one step more of the task, and returns how many that are. The index `near` is tried
/// before the name's hash is taken, and becomes the task's: mostly a task executes several steps in
/// a row.
#[inline(always)]
pub(crate) fn count_step(
    counts: &mut IndexMap<TaskName, u32>,
    near: &mut usize,
    task: &TaskName,
) -> Result<u32, AllocError>
    requires few { count_of counts.old.entries task.now < 4294967295 }
    ensures number { IfOk result (λ k. k ≡ suc (count_of counts.old.entries task.now)) }
    ensures counts { OnOk result (IsCounted counts.old.entries task.now counts.new.entries) }
{
    if stands_at(counts, *near, task) {
        if let Some(count) = counts.get_index_mut(*near) {
            *count += 1;
            return Ok(*count);
        }
    }
    *near = counts.get_index_of(task).unwrap_or(counts.len());
    count_by_hash(counts, task)
}

/// Whether the task's count is at the index.
#[inline(always)]
fn stands_at(counts: &IndexMap<TaskName, u32>, at: usize, task: &TaskName) -> bool
    ensures { IsTrue result → slice_get (keys_of counts.now.entries) at ≡ Some task.now }
{
    match counts.as_slice().get_index(at) {
        Some((key, _)) => *key == *task,
        None => false,
    }
}

/// Counts one step more of a task, which is looked up by the hash of its name, and returns how many
/// that are.
// out of line: most steps don't pay for its stack frame
#[inline(never)]
fn count_by_hash(counts: &mut IndexMap<TaskName, u32>, task: &TaskName) -> Result<u32, AllocError>
    requires few { count_of counts.old.entries task.now < 4294967295 }
    ensures number { IfOk result (λ k. k ≡ suc (count_of counts.old.entries task.now)) }
    ensures counts { OnOk result (IsCounted counts.old.entries task.now counts.new.entries) }
{
    if let Some(count) = counts.get_mut(task) {
        *count += 1;
        return Ok(*count);
    }
    let name = task.clone()?;
    counts.reserve(1)?;
    counts.insert(name, 1).unwrap();
    Ok(1)
}
