//! A small history, event by event.

ghost use Rattle.std.specs.Prelude.{◌<◌};

use std::alloc::Global;
use std::mem::forget;
use tb_clocks::{Group, Tasks};
use tb_model::{Action, Args, Event, Item, Items, Kind, Place, Spawn, Spawned, TaskName};

const CELL: Item = Item {
    kind: Kind::Inout,
    place: Place::Cell(3),
};

/// The action that generates this child, with one item.
pub fn spawn(alloc: Global, child: TaskName, deferred: bool) -> Option<Action> {
    let mut items = Items::new(alloc);
    let _ = items.push(CELL);
    let spawn = Spawn {
        child,
        body: 0,
        args: Args::new(alloc),
        items,
        deferred,
    };
    match Spawned::new(alloc, spawn) {
        Ok(spawned) => Some(Action::Spawn(spawned)),
        Err(_) => None,
    }
}

/// The task with this id executes the step; whether there was memory for it. What it needs isn't
/// given back, so that no test is proved for each way to do that.
fn takes(alloc: Global, tasks: &mut Tasks, id: usize, task: TaskName, action: Action) -> bool {
    let event = Event { task, action };
    let taken = tasks.push(alloc, id, &event.action).is_ok();
    forget(event);
    taken
}

/// The task with this id generates its nth child.
fn spawns(
    alloc: Global,
    tasks: &mut Tasks,
    id: usize,
    task: TaskName,
    n: u32,
    deferred: bool,
) -> bool
    requires { 0 < n }
{
    let Ok(child) = task.child(n) else {
        return false;
    };
    match spawn(alloc, child, deferred) {
        Some(action) => takes(alloc, tasks, id, task, action),
        None => false,
    }
}

fn root(alloc: Global) -> TaskName {
    TaskName::root(alloc)
}

/// The second child of the root, and the root where there was no memory for its name.
pub fn second(alloc: Global) -> TaskName {
    match TaskName::root(alloc).child(2) {
        Ok(name) => name,
        Err(_) => TaskName::root(alloc),
    }
}

/// The root generates a task, opens a group, and generates an undeferred task in it, which generates
/// one.
fn is_filled(alloc: Global, tasks: &mut Tasks) -> bool {
    takes(alloc, tasks, 0, root(alloc), Action::Start)
        && spawns(alloc, tasks, 0, root(alloc), 1, true)
        && takes(alloc, tasks, 0, root(alloc), Action::Open)
        && spawns(alloc, tasks, 0, root(alloc), 2, false)
        && takes(alloc, tasks, 2, second(alloc), Action::Start)
        && spawns(alloc, tasks, 2, second(alloc), 1, true)
}

fn has_rows(tasks: &Tasks) -> bool {
    tasks.steps(0) == 4
        && tasks.steps(1) == 0
        && tasks.steps(2) == 2
        && tasks.children(0) == 2
        && tasks.parent(1) == 0
        && tasks.parent(3) == 2
        && tasks.items(0).is_empty()
        && tasks.items(3).len() == 1
}

fn is_held_at_its_child(tasks: &Tasks) -> bool {
    tasks.is_held(0) && !tasks.is_held(2) && tasks.holds(0, 2) && !tasks.holds(0, 1)
}

fn has_members(tasks: &Tasks) -> bool {
    tasks.innermost(0) == Some(Group { at: 2, children: 1 })
        && tasks.innermost(2).is_none()
        && tasks.opened(0) == 2
        && tasks.opened(2) == 0
        && !tasks.is_member(0, 1)
        && tasks.is_member(0, 2)
        && tasks.is_member(0, 3)
        && !tasks.is_member(2, 3)
}

#[test]
fn each_task_has_its_row(rt: HostRuntime) {
    let Ok(mut tasks) = Tasks::new(rt.alloc()) else {
        assert!(rt; false);
        return;
    };
    let filled = is_filled(rt.alloc(), &mut tasks);
    let rows = has_rows(&tasks);
    let held = is_held_at_its_child(&tasks);
    let members = has_members(&tasks);
    let closed = takes(rt.alloc(), &mut tasks, 0, root(rt.alloc()), Action::Close);
    let left = tasks.innermost(0).is_none() && !tasks.is_member(0, 2);
    forget(tasks);
    assert!(rt; filled);
    assert!(rt; rows);
    assert!(rt; held);
    assert!(rt; members);
    assert!(rt; closed && left);
}
