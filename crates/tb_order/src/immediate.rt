//! The immediate needs of a step.

ghost use Rattle.std.specs.Prelude.{◌≡◌, ◌<◌, ◌≤◌, IfOk, IsTrue, Some, is_some, length, map, take, reverse, get_or};
ghost use Rattle.std.specs.List.{All};
ghost use Rattle.tb_model.specs.Facts.{is_spawned};
ghost use Rattle.tb_steps.specs.Entries.{Entry as AnEntry};
ghost use Rattle.tb_steps.specs.Scans.{AreLegal, history_of};
ghost use Rattle.tb_races.specs.declared.cause.Cause.{Cause as ACause};
ghost use Rattle.tb_races.specs.Immediate.{immediate};
ghost use Rattle.tb_order.specs.Told.{told};

use crate::kinds::need_kind;
use std::alloc::{AllocError, Global};
use tb_cause::nearest_places;
use tb_core::{History, step_at};
use tb_model::{Action, TaskName};
use tb_races::Cause;

/// The immediate needs of the step at this index.
pub fn immediate(alloc: Global, entries: &History<'_>, at: usize) -> Result<Vec<Cause>, AllocError>
    requires legal { AreLegal entries.now }
    requires bound { length entries.now ≤ 1000000 }
    requires within { at < length entries.now }
    ensures { IfOk result (λ causes. (v : AnEntry) → v ≡ get_or entries.now at v →
        causes.items ≡ reverse (immediate (history_of (take at entries.now)) v.event (history_of (take at entries.now)))) }
{
    let places = nearest_places(alloc, entries, at)?;
    let front = entries.front(at);
    let causes = causes_at(alloc, &front, entries.task(at), entries.action(at), &places)?;
    Ok(causes)
}

/// The causes at these indexes, for the action of the task, which comes after these steps.
fn causes_at(
    alloc: Global,
    front: &History<'_>,
    task: &TaskName,
    action: &Action,
    places: &[u32],
) -> Result<Vec<Cause>, AllocError>
    requires legal { AreLegal front.now }
    requires spawned { IsTrue (is_spawned (history_of front.now) task.now) }
    requires bound { length front.now ≤ 1000000 }
    requires within { All (λ p. p < length front.now) places.now }
    requires near { All (λ p. IsTrue (is_some
        (told front.now (record { task = task.now; action = action.now }) p))) places.now }
    ensures { IfOk result (λ causes. map (λ (c : ACause). Some c) causes.items
        ≡ map (told front.now (record { task = task.now; action = action.now })) places.now) }
{
    let mut causes = Vec::new(alloc);
    for place in places {
        causes.push(cause_at(front, task, action, *place as usize)?)?;
    }
    Ok(causes)
}

/// The step at this index, which is an immediate need of the action of the task.
fn cause_at(
    front: &History<'_>,
    task: &TaskName,
    action: &Action,
    first: usize,
) -> Result<Cause, AllocError>
    requires legal { AreLegal front.now }
    requires spawned { IsTrue (is_spawned (history_of front.now) task.now) }
    requires bound { length front.now ≤ 1000000 }
    requires within { first < length front.now }
    requires near { IsTrue (is_some
        (told front.now (record { task = task.now; action = action.now }) first)) }
    ensures { IfOk result (λ c.
        told front.now (record { task = task.now; action = action.now }) first ≡ Some c) }
{
    let kind = need_kind(front, task, action, front.task(first), front.action(first)).unwrap();
    let step = step_at(front, first)?;
    Ok(Cause { kind, step })
}
