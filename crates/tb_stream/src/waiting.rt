//! For which ends a step waits.

ghost use Rattle.std.specs.Prelude.{◌≡◌, ◌<◌, ◌≤◌, ◌||◌, ◌&&◌, ℕ, IsFalse, IsTrue, Some, slice_get};
ghost use Rattle.tb_clocks.specs.Known.{AreTasks, HasId};
ghost use Rattle.tb_steps.specs.Entries.{Entry};
ghost use Rattle.tb_model.specs.Facts;
ghost use Rattle.tb_model.specs.Legal.{Cells};
ghost use Rattle.tb_model.specs.Names.{Name};
ghost use Rattle.tb_races.specs.Kinds;
ghost use Rattle.tb_races.specs.Orders.{counts_some};
ghost use Rattle.tb_lanes.specs.Clocks.{IsEnd, both_at, is_end_at, links_at, of_one};
ghost use Rattle.tb_lanes.specs.Linking.{order_of, start_kind};
ghost use Rattle.tb_stream.specs.Joins.{IsNow, waited_by};
ghost use Rattle.tb_stream.specs.Seen.{IsId, IsOf, Run, order};

use crate::mark::Mark;
use crate::waiter::Waiter;
use tb_clocks::Tasks;
use tb_lanes::{covers, waits_by_itself};
use tb_model::{Action, some_apart, some_before};

/// Whether the task's next step, with this action, may wait for others. A start without depend items
/// doesn't.
pub fn may_wait(tasks: &Tasks, task: usize, action: &Action) -> bool
    ensures { IsFalse result → (r : Run) (n : ℕ) → IsNow r n tasks.now action.now task
        → (x : ℕ) → x < n
        → IsTrue (is_end_at r.entries x) → IsTrue (links_at (order r) r.entries n x)
        → IsTrue (both_at of_one r.entries n x) }
{
    let waits = waits_by_itself(action, tasks.items(task));
    either(waits, tasks.is_held(task))
}

/// For whose children it may wait: a start for those of its parent, others for their own.
pub fn whose_children(tasks: &Tasks, task: usize, action: &Action) -> usize
    ensures { (r : Run) (n : ℕ) → IsNow r n tasks.now action.now task → (v : Entry)
        → slice_get r.entries n ≡ Some v
        → IsId r result (waited_by action.now v.event.task) }
{
    if action.is_start() {
        tasks.parent(task)
    } else {
        task
    }
}

/// An index in front of which there is no end for which the step waits: that of the end of a
/// taskgroup is where the group was opened, that of others 0.
pub fn first_asked(tasks: &Tasks, task: usize, action: &Action) -> usize
    ensures { (r : Run) (n : ℕ) → IsNow r n tasks.now action.now task
        → (x : ℕ) → IsEnd r.entries n x
        → IsTrue (links_at (order r) r.entries n x) → result ≤ x }
{
    match action {
        Action::Close => tasks.opened(task),
        _ => 0,
    }
}

/// Whether the step is linked to the end, where exclusion counts or doesn't.
pub fn waits(exclusion: bool, waiter: &Waiter<'_>, end: Mark) -> bool
    ensures { (r : Run) (n : ℕ) → exclusion ≡ r.exclusion
        → IsNow r n waiter.now.tasks.now waiter.now.action.now waiter.now.step.task
        → IsEnd r.entries n end.at → IsOf r end.at end.task
        → result ≡ links_at (order r) r.entries n end.at }
{
    let task = waiter.step.task;
    let waits = waits_for(exclusion, waiter.tasks, waiter.action, task, end.task);
    let held = waiter.tasks.holds(task, end.task);
    either(task == end.task, either(waits, held))
}

/// Whether the action of the task waits for the other task.
fn waits_for(exclusion: bool, tasks: &Tasks, action: &Action, task: usize, other: usize) -> bool
    ensures { (cells : Cells) (H : Facts.History) (t u : Name) → AreTasks cells H tasks.now
        → HasId H task t → HasId H other u
        → result ≡ counts_some (order_of exclusion) (Kinds.wait_kind H t action.now u) }
{
    match action {
        Action::Start => starts_after(exclusion, tasks, task, other),
        Action::Wait { items } => {
            let covered = covers(items.as_slice(), tasks.items(other));
            both(tasks.is_child(task, other), covered)
        }
        Action::Close => tasks.is_member(task, other),
        _ => false,
    }
}

/// Whether the start of the task waits for the other task.
fn starts_after(exclusion: bool, tasks: &Tasks, task: usize, other: usize) -> bool
    ensures { (cells : Cells) (H : Facts.History) (t u : Name) → AreTasks cells H tasks.now
        → HasId H task t → HasId H other u
        → result ≡ counts_some (order_of exclusion) (start_kind H t u) }
{
    let items = tasks.items(task);
    let others = tasks.items(other);
    let older = tasks.is_elder(other, task);
    let before = both(older, some_before(items, others));
    let apart = both(older, some_apart(items, others));
    let excluded = both(tasks.is_elder(task, other), some_apart(others, items));
    either(before, both(exclusion, either(apart, excluded)))
}

// for the proof: a call has no branch, `||` has one
fn either(one: bool, other: bool) -> bool
    ensures { result ≡ (one || other) }
{
    one || other
}

// for the proof: a call has no branch, `&&` has one
fn both(one: bool, other: bool) -> bool
    ensures { result ≡ (one && other) }
{
    one && other
}
