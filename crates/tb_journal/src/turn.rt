//! Whose entries these are.

ghost use Rattle.std.specs.Prelude.{◌≡◌, ◌<◌, ◌≤◌, ◌+◌, ℕ, [], IfOk, IsTrue, unwrap_or, vec_len, vec_capacity};
ghost use Rattle.tb_journal.specs.Turns.{Rises, task_at, Begins};

use std::alloc::AllocError;
use tb_model::TaskName;

/// The entries from this slot on are the task's, up to where the next turn begins.
#[derive(Drop)]
pub(crate) struct Turn {
    from: usize,
    task: TaskName,
}

/// Whether the newest turn is the task's, so that it goes on with the task's next entry.
#[inline(always)]
fn goes_on(turns: &[Turn], task: &TaskName) -> bool
    ensures { IsTrue result → (at : ℕ) → Rises 0 turns.now at → task_at [] turns.now at ≡ task.now }
{
    match turns.last() {
        Some(turn) => turn.task == *task,
        None => false,
    }
}

/// A copy of the task's name, if a turn has to begin with its next entry.
#[inline(always)]
pub(crate) fn copied_for(turns: &[Turn], task: &TaskName) -> Result<Option<TaskName>, AllocError>
    ensures { IfOk result (λ new. (at : ℕ) → Rises 0 turns.now at → unwrap_or new (task_at [] turns.now at) ≡ task.now) }
{
    if goes_on(turns, task) {
        return Ok(None);
    }
    Ok(Some(task.clone()?))
}

/// The task's name, if a turn has to begin with its next entry.
#[inline(always)]
pub(crate) fn kept_for(turns: &[Turn], task: TaskName) -> Option<TaskName>
    ensures { (at : ℕ) → Rises 0 turns.now at → unwrap_or result (task_at [] turns.now at) ≡ task }
{
    if goes_on(turns, &task) {
        return None;
    }
    Some(task)
}

/// A task's turn begins at the slot, which is after all others; with no task the newest one goes
/// on.
#[inline(always)]
pub(crate) fn begin(turns: &mut Vec<Turn>, at: usize, new: Option<TaskName>)
    requires room { vec_len turns.old < vec_capacity turns.old }
    requires rises { Rises 0 turns.old.items at }
    ensures begun { Begins at (unwrap_or new (task_at [] turns.old.items at)) turns.old.items turns.new.items }
    ensures len { vec_len turns.new ≤ vec_len turns.old + 1 }
    ensures capacity { vec_capacity turns.new ≡ vec_capacity turns.old }
{
    match new {
        Some(task) => turns.push_reserved(Turn { from: at, task }),
        None => {}
    }
}

/// The task whose entry is at the slot: the root, where none has begun.
pub(crate) fn task_at<'a>(root: &'a TaskName, turns: &'a [Turn], place: usize) -> &'a TaskName
    requires { (high : ℕ) × Rises 0 turns.now high }
    ensures { result.now ≡ task_at root.now turns.now place }
{
    let after = turns.partition_point(|turn| turn.from <= place);
    if after == 0 {
        return root;
    }
    &turns[after - 1].task
}
