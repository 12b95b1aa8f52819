//! A step is put into an order.

ghost use Rattle.std.specs.Prelude.{◌≡◌, ◌<◌, ◌≤◌, ◌+◌, ◌⊎◌, ◌++◌, ◌∷◌, [], ℕ, IfOk, OnOk, Some, length, slice_get, slice_index_or};
ghost use Rattle.tb_steps.specs.Entries.{Entry};
ghost use Rattle.tb_clocks.specs.Known.{AreTasks};
ghost use Rattle.tb_lanes.specs.Clocks.{Lanes};
ghost use Rattle.tb_stream.specs.Joins.{IsNow, IsOrder};
ghost use Rattle.tb_stream.specs.Placing.{HasPlaced, IsBegun, IsGoing, IsPlaced, IsWaited, OldEnds, IsComplete, lasts_with, newest_with, with_step};
ghost use Rattle.tb_stream.specs.Seen.{AreClocks, IsAdded, IsEvent, IsOf, Run, front};

use crate::asked::merge_all;
use crate::clocks::Clocks;
use crate::joined::Joined;
use crate::joining::is_merged;
use crate::mark::Mark;
use crate::merging::is_last;
use crate::noting::{note_end, note_rows};
use crate::order::Order;
use crate::waiter::Waiter;
use crate::waiting::{first_asked, may_wait, whose_children};
use std::alloc::AllocError;
use tb_clocks::Tasks;
use tb_lanes::{LaneBound, add_row, bound, row, whole};
use tb_model::Action;

/// Puts the next step, with this index and of the task with this id, into the order, where the
/// tables say what the run in front of it says of its tasks.
pub fn place(
    order: &mut Order,
    tasks: &Tasks,
    action: &Action,
    at: usize,
    task: usize,
) -> Result<Mark, AllocError>
    ensures { IfOk result (λ m. (r : Run) (n : ℕ) (lanes : Lanes)
        → IsOrder r n lanes order.old
        → IsNow r n tasks.now action.now task → at ≡ n → HasPlaced r n lanes m order.new) }
{
    let first = begin(&order.clocks, at, task);
    let mark = finish(order, tasks, action, first)?;
    add(&mut order.clocks, mark, action)?;
    note_over(order, tasks, action, mark)?;
    Ok(mark)
}

/// The step with the row and the lane of the newest step of its task, else with no row and a new
/// lane.
fn begin(clocks: &Clocks, at: usize, task: usize) -> Mark
    ensures begun { (r : Run) (n : ℕ) (lanes : Lanes) → AreClocks r n lanes clocks.now → at ≡ n
        → n < length r.entries → IsOf r n task
        → IsBegun r n lanes clocks.now.rows.items result }
    ensures task { result.task ≡ task }
{
    match newest_of(clocks, task) {
        Some(before) => Mark {
            at,
            lane: before.lane,
            row: before.row,
            task,
        },
        None => Mark {
            at,
            lane: clocks.lasts.len(),
            row: 0,
            task,
        },
    }
}

/// The newest step of the task.
fn newest_of(clocks: &Clocks, task: usize) -> Option<Mark>
    ensures { (r : Run) (n : ℕ) (lanes : Lanes) → AreClocks r n lanes clocks.now
        → n < length r.entries → IsOf r n task
        → slice_get clocks.now.newest.items task ≡ Some result }
{
    match clocks.newest.get(task) {
        Some(found) => *found,
        None => None,
    }
}

/// The step with its own row, in which all ends are to which it is linked, and with its own lane.
fn finish(order: &mut Order, tasks: &Tasks, action: &Action, step: Mark) -> Result<Mark, AllocError>
    ensures past { OnOk result ((r : Run) (n : ℕ) (lanes : Lanes)
        → IsOrder r n lanes order.old
        → IsNow r n tasks.now action.now step.task
        → IsBegun r n lanes order.old.clocks.rows.items step → IsOrder r n lanes order.new) }
    ensures placed { IfOk result (λ m. (r : Run) (n : ℕ) (lanes : Lanes)
        → IsOrder r n lanes order.old
        → IsNow r n tasks.now action.now step.task
        → IsBegun r n lanes order.old.clocks.rows.items step
        → IsPlaced r n lanes order.new.clocks.rows.items m) }
{
    order.free = first_free(order);
    if !may_wait(tasks, step.task, action) {
        return Ok(stay(order, step));
    }
    let joined = waited(order, tasks, action, step)?;
    match joined.end {
        None => Ok(stay(order, step)),
        Some(end) => {
            let mut row = whole(order.alloc, joined.rows)?;
            row.shrink_to_fit();
            let mark = go_on(&mut order.clocks, step, end, row)?;
            Ok(mark)
        }
    }
}

/// The step with this row, which has the end: one that opens a lane goes on in that of the end,
/// where nothing else does.
fn go_on(
    clocks: &mut Clocks,
    step: Mark,
    end: Mark,
    row: Vec<LaneBound>,
) -> Result<Mark, AllocError>
    ensures clocks { OnOk result ((r : Run) (n : ℕ) (lanes : Lanes)
        → AreClocks r n lanes clocks.old
        → AreClocks r n lanes clocks.new) }
    ensures rows { OnOk result (clocks.new.rows.items ≡ clocks.old.rows.items ++ row ∷ []) }
    ensures placed { IfOk result (λ m. (r : Run) (n : ℕ) (lanes : Lanes)
        → AreClocks r n lanes clocks.old
        → IsGoing r n lanes clocks.old.rows.items step end row
        → IsPlaced r n lanes clocks.new.rows.items m) }
{
    let lane = lane_behind(&clocks.lasts, step.lane, end);
    clocks.rows.push(row)?;
    Ok(Mark {
        at: step.at,
        lane,
        row: clocks.rows.len(),
        task: step.task,
    })
}

/// What is in front of the step, which may wait.
fn waited(order: &Order, tasks: &Tasks, action: &Action, step: Mark) -> Result<Joined, AllocError>
    ensures { IfOk result (λ j. (r : Run) (n : ℕ) (lanes : Lanes) → IsOrder r n lanes order.now
        → IsNow r n tasks.now action.now step.task
        → IsBegun r n lanes order.now.clocks.rows.items step
        → IsWaited r n lanes order.now.clocks.rows.items step j) }
{
    let mut joined = Joined {
        rows: Vec::new(order.alloc),
        end: None,
    };
    let own = Vec::from_slice(order.alloc, row(&order.clocks.rows, step.row))?;
    add_row(order.alloc, &mut joined.rows, own)?;
    let waiter = Waiter {
        tasks,
        action,
        step,
        parent: whose_children(tasks, step.task, action),
        from: first_asked(tasks, step.task, action),
    };
    merge_all(&mut joined, &waiter, order)?;
    Ok(joined)
}

/// The index of the first end, the one found last or one after it, in whose lane no step went on.
fn first_free(order: &Order) -> usize
    ensures { order.now.free ≤ result }
{
    let mut free = order.free;
    'pass: while free < order.ends.len() {
        if is_last(&order.clocks.lasts, order.ends[free].mark) {
            return free;
        }
        free += 1;
    }
    free
}

/// The step with its row as it is. One that opens a lane goes on in that of the first free end, where
/// that is in front of it: what generated its task may have waited for it.
fn stay(order: &Order, step: Mark) -> Mark
    ensures { (r : Run) (n : ℕ) (lanes : Lanes) → IsOrder r n lanes order.now
        → IsBegun r n lanes order.now.clocks.rows.items step
        → IsComplete r n lanes order.now.clocks.rows.items step
        → IsPlaced r n lanes order.now.clocks.rows.items result }
{
    let clocks = &order.clocks;
    if step.lane < clocks.lasts.len() {
        return step;
    }
    let Some(end) = order.ends.get(order.free) else {
        return step;
    };
    let told = bound(row(&clocks.rows, step.row), end.mark.lane);
    if !is_merged(clocks, told, step, end.mark) {
        return step;
    }
    Mark {
        at: step.at,
        lane: lane_behind(&clocks.lasts, step.lane, end.mark),
        row: step.row,
        task: step.task,
    }
}

/// The lane of a step that comes after this end: a step that opens a lane goes on in that of the end
/// where nothing else does.
fn lane_behind(lasts: &[usize], lane: usize, end: Mark) -> usize
    ensures { (result ≡ lane) ⊎ ((lane ≡ length lasts.now) × (result ≡ end.lane)
        × (end.at ≡ slice_index_or lasts.now end.lane 0)) }
{
    if lane == lasts.len() && is_last(lasts, end) {
        end.lane
    } else {
        lane
    }
}

/// Adds the step to the clocks.
fn add(clocks: &mut Clocks, step: Mark, action: &Action) -> Result<(), AllocError>
    ensures added { OnOk result ((r : Run) (n : ℕ) (lanes : Lanes)
        → AreClocks r n lanes clocks.old
        → IsPlaced r n lanes clocks.old.rows.items step
        → ((v : Entry) → slice_get r.entries n ≡ Some v → action.now ≡ v.event.action)
        → IsAdded r n (with_step lanes n clocks.old.rows.items step) clocks.new step) }
    ensures rows { OnOk result (clocks.new.rows ≡ clocks.old.rows) }
{
    add_last(&mut clocks.lasts, step)?;
    set_newest(&mut clocks.newest, step);
    if let Action::Spawn(_) = action {
        clocks.origins.push(Some(step))?;
        clocks.newest.push(None)?;
    }
    Ok(())
}

/// Notes the newest step of its lane.
fn add_last(lasts: &mut Vec<usize>, step: Mark) -> Result<(), AllocError>
    ensures { OnOk result (lasts.new.items ≡ lasts_with step lasts.old.items) }
{
    if step.lane < lasts.len() {
        lasts[step.lane] = step.at;
        Ok(())
    } else {
        lasts.push(step.at)?;
        Ok(())
    }
}

/// Notes the newest step of its task.
fn set_newest(newest: &mut Vec<Option<Mark>>, step: Mark)
    ensures { newest.new.items ≡ newest_with step newest.old.items }
{
    if step.task < newest.len() {
        newest[step.task] = Some(step);
    }
}

/// Notes the step among the ends, where it is one.
fn note_over(
    order: &mut Order,
    tasks: &Tasks,
    action: &Action,
    mark: Mark,
) -> Result<(), AllocError>
    ensures past { OnOk result ((r : Run) (n : ℕ) (lanes : Lanes)
        → IsAdded r n lanes order.old.clocks mark
        → OldEnds r n lanes order.old → AreTasks r.legal.cells (front r n) tasks.now
        → IsEvent r n action.now → IsOrder r (n + 1) lanes order.new) }
    ensures clocks { OnOk result (order.new.clocks ≡ order.old.clocks) }
{
    if action.is_end() {
        let parent = tasks.parent(mark.task);
        let items = tasks.items(mark.task);
        note_end(&order.clocks, &mut order.ends, mark)?;
        note_rows(
            order.alloc,
            &order.clocks,
            &mut order.rows,
            mark,
            parent,
            items,
        )?;
    }
    Ok(())
}
