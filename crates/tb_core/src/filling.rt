//! What a step fills in: the value that a load reads, and the name of a child.

ghost use Rattle.std.specs.Prelude.{◌≡◌, ◌<◌, ◌↔◌, ℕ, List, IfOk, IsOk, IsTrue, IsFalse, Some, None, length};
ghost use Rattle.tb_model.specs.declared.event.Event.{Event as AnEvent};
ghost use Rattle.tb_model.specs.Names.{child};
ghost use Rattle.tb_plan.specs.Plans.{names_allowed};
ghost use Rattle.tb_core.specs.Filling.{spare_spawn, Fills, IsNextSpawn, IsRunOf, IsWhole};

use std::alloc::AllocError;
use tb_model::{Action, Event, Spawned, TaskName};
use tb_plan::Plan;
use tb_undo::Tables;

/// The action of an event whose task's name isn't wanted any longer.
#[inline(always)]
pub fn action_of(event: Event) -> Action
    ensures { result ≡ event.action }
{
    let Event { task: _, action } = event;
    action
}

/// No event is retained any longer.
#[inline(always)]
pub fn forget(place: &mut Option<Event>)
    ensures { place.new ≡ None }
{
    if place.is_some() {
        drop_event(place);
    }
}

/// Drops the event, and leaves none.
// out of line: a step that finds no event there doesn't pay for its stack frame
#[inline(never)]
fn drop_event(place: &mut Option<Event>)
    ensures { place.new ≡ None }
{
    *place = None;
}

/// The event of the plan.
pub fn planned(tables: &Tables, plan: &Plan) -> Result<Event, AllocError>
    requires allowed { IsTrue (names_allowed (length tables.now.store.cells) plan.now.action) }
    requires run { IsRunOf tables.now plan.now.config.task }
    ensures { IfOk result (Fills tables.now plan.now.config.task plan.now.action) }
{
    let action = plan.action.clone()?;
    event_for(tables, &plan.config.task, action)
}

/// The event of an action of the task.
#[inline(always)]
pub fn event_for(tables: &Tables, task: &TaskName, action: Action) -> Result<Event, AllocError>
    requires allowed { IsTrue (names_allowed (length tables.now.store.cells) action) }
    requires run { IsRunOf tables.now task.now }
    ensures { IfOk result (Fills tables.now task.now action) }
{
    let task = task.clone()?;
    if is_whole(&action) {
        return Ok(Event { task, action });
    }
    fill_in(tables, task, action)
}

/// Whether nothing is filled in of the action.
#[inline(always)]
pub fn is_whole(action: &Action) -> bool
    ensures { IsTrue result → IsWhole action.now }
{
    match action {
        Action::Load { .. } | Action::Spawn(_) => false,
        _ => true,
    }
}

pub fn copy_event(event: &Event) -> Result<Event, AllocError>
    ensures { IfOk result (λ copy. copy ≡ event.now) }
{
    let task = event.task.clone()?;
    let action = event.action.clone()?;
    Ok(Event { task, action })
}

/// The event of an action that was planned for the task: a load gets its cell's value, and a spawn
/// the name of the task's next child.
// out of line: a step of which nothing is filled in doesn't pay for its stack frame
#[inline(never)]
pub fn fill_in(tables: &Tables, task: TaskName, action: Action) -> Result<Event, AllocError>
    requires allowed { IsTrue (names_allowed (length tables.now.store.cells) action) }
    requires run { IsRunOf tables.now task }
    ensures ok { IfOk result (Fills tables.now task action) }
    ensures room { (v : AnEvent) → Fills tables.now task action v → spare_spawn (Some v) ≡ None → IsOk result }
{
    let action = match action {
        Action::Load {
            reg,
            cell,
            value: _,
        } => Action::Load {
            reg,
            cell,
            value: tables.get(cell),
        },
        Action::Spawn(spawned) => Action::Spawn(next_spawn(tables, &task, spawned)?),
        other => other,
    };
    Ok(Event { task, action })
}

/// The spawn with the name of the task's next child.
fn next_spawn(tables: &Tables, task: &TaskName, spawned: Spawned) -> Result<Spawned, AllocError>
    requires { IsRunOf tables.now task.now }
    ensures { IfOk result (IsNextSpawn tables.now task.now spawned) }
{
    let n = tables.children(task).unwrap_or(0) + 1;
    with_nth_child(spawned, task, n)
}

/// Whether the event is that of the action, and generates a task.
pub fn is_spawn_of(event: &Event, tables: &Tables, task: &TaskName, action: &Action) -> bool
    requires { IsRunOf tables.now task.now }
    ensures yes { IsTrue result → Fills tables.now task.now action.now event.now }
    ensures no { IsFalse result → Fills tables.now task.now action.now event.now → spare_spawn (Some event.now) ≡ None }
{
    let Action::Spawn(spawned) = action else {
        return false;
    };
    let Action::Spawn(spare) = &event.action else {
        return false;
    };
    event.task == *task && is_next_spawn(tables, task, spawned, spare)
}

/// Whether the spare spawn is the spawn with the name of the task's next child.
fn is_next_spawn(tables: &Tables, task: &TaskName, spawned: &Spawned, spare: &Spawned) -> bool
    requires { IsRunOf tables.now task.now }
    ensures { IsTrue result ↔ IsNextSpawn tables.now task.now spawned.now spare.now }
{
    let n = tables.children(task).unwrap_or(0) + 1;
    is_nth_spawn(spare, spawned, task, n)
}

/// The spawn with the name of the task's nth child.
fn with_nth_child(spawned: Spawned, task: &TaskName, n: u32) -> Result<Spawned, AllocError>
    requires { 0 < n }
    ensures { IfOk result (λ s. s ≡ record spawned { child = child task.now n }) }
{
    spawned.with_child(task.child(n)?)
}

/// Whether the one spawn is the other with the name of the task's nth child.
fn is_nth_spawn(spare: &Spawned, spawned: &Spawned, task: &TaskName, n: u32) -> bool
    ensures { IsTrue result ↔ (spare.now ≡ record spawned.now { child = child task.now n }) }
{
    let spare = spare.get();
    spare.is_like(spawned.get()) && is_nth_child(&spare.child, task, n)
}

fn is_nth_child(name: &TaskName, parent: &TaskName, n: u32) -> bool
    ensures { IsTrue result ↔ (name.now ≡ child parent.now n) }
{
    match name.ordinal() {
        None => false,
        Some(m) => m == n && parent.is_parent_of(name),
    }
}
