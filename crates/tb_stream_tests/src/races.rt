//! Two children store to one cell, and their parent loads it after a `taskwait`; two that exclude each
//! other store to one cell.

ghost use Rattle.std.specs.Prelude.{◌<◌};

use std::alloc::Global;
use std::mem::forget;
use tb_model::{
    Action, Args, Event, Item, Items, Kind, Place, Spawn, Spawned, TaskName, WaitItems,
};
use tb_stream::Races;

/// An item by which tasks exclude each other.
const EXCLUSIVE: Item = Item {
    kind: Kind::Mutexinoutset,
    place: Place::Cell(9),
};

fn root(alloc: Global) -> TaskName {
    TaskName::root(alloc)
}

/// The nth child of the root, and the root where there was no memory for its name.
fn child(alloc: Global, n: u32) -> TaskName
    requires { 0 < n }
{
    match root(alloc).child(n) {
        Ok(name) => name,
        Err(_) => root(alloc),
    }
}

/// The action that generates the nth child of the root.
fn spawn(alloc: Global, n: u32) -> Option<Action>
    requires { 0 < n }
{
    let spawn = Spawn {
        child: child(alloc, n),
        body: 0,
        args: Args::new(alloc),
        items: Items::new(alloc),
        deferred: true,
    };
    match Spawned::new(alloc, spawn) {
        Ok(spawned) => Some(Action::Spawn(spawned)),
        Err(_) => None,
    }
}

/// Adds a step, and returns the ordinal of the step with which it races, 0 for none; none where
/// there was no memory. What it needs isn't given back.
fn racing(races: &mut Races, task: TaskName, action: Action) -> Option<u32> {
    let event = Event { task, action };
    let told = races.push(&event);
    forget(event);
    match told {
        Ok(Some(race)) => {
            let k = race.earlier.k;
            forget(race);
            Some(k)
        }
        Ok(None) => Some(0),
        Err(_) => None,
    }
}

/// Whether the step of the root that generates its nth child races with none.
fn spawns(alloc: Global, races: &mut Races, n: u32) -> bool
    requires { 0 < n }
{
    match spawn(alloc, n) {
        Some(action) => racing(races, root(alloc), action) == Some(0),
        None => false,
    }
}

/// The ordinal of the step with which the store of the root's nth child races.
fn stores(alloc: Global, races: &mut Races, n: u32) -> Option<u32>
    requires { 0 < n }
{
    let started = racing(races, child(alloc, n), Action::Start);
    let stored = racing(races, child(alloc, n), Action::Store { cell: 7, value: 1 });
    let ended = racing(races, child(alloc, n), Action::End);
    if started == Some(0) && ended == Some(0) {
        stored
    } else {
        None
    }
}

/// Whether the stores of two siblings race, and a load after a `taskwait` doesn't.
fn is_right(alloc: Global, races: &mut Races) -> bool {
    let started = racing(races, root(alloc), Action::Start);
    let spawned = spawns(alloc, races, 1) && spawns(alloc, races, 2);
    let first = stores(alloc, races, 1);
    let second = stores(alloc, races, 2);
    let Ok(items) = WaitItems::new(alloc, Items::new(alloc)) else {
        return false;
    };
    let waited = racing(races, root(alloc), Action::Wait { items });
    let load = Action::Load {
        reg: 0,
        cell: 7,
        value: 1,
    };
    let loaded = racing(races, root(alloc), load);
    let ordered = started == Some(0) && spawned && waited == Some(0) && loaded == Some(0);
    ordered && first == Some(0) && second == Some(2)
}

#[test]
fn stores_of_siblings_race_and_a_load_after_a_taskwait_does_not(rt: HostRuntime) {
    let alloc = rt.alloc();
    let Ok(mut races) = Races::new(alloc) else {
        assert!(rt; false);
        return;
    };
    let right = is_right(alloc, &mut races);
    forget(races);
    assert!(rt; right);
}

/// Whether a step races with one from which exclusion keeps it apart. What it needs isn't given back.
fn is_apart(races: &mut Races, task: TaskName, action: Action) -> Option<bool> {
    let event = Event { task, action };
    let told = races.push(&event);
    forget(event);
    match told {
        Ok(Some(race)) => {
            let apart = race.apart;
            forget(race);
            Some(apart)
        }
        _ => None,
    }
}

/// The action that generates the nth child of the root, which excludes others at a cell.
fn spawn_exclusive(alloc: Global, n: u32) -> Option<Action>
    requires { 0 < n }
{
    let mut items = Items::new(alloc);
    let _ = items.push(EXCLUSIVE);
    let spawn = Spawn {
        child: child(alloc, n),
        body: 0,
        args: Args::new(alloc),
        items,
        deferred: true,
    };
    match Spawned::new(alloc, spawn) {
        Ok(spawned) => Some(Action::Spawn(spawned)),
        Err(_) => None,
    }
}

/// Whether the root's step that generates its nth child, which excludes others, races with none.
fn spawns_exclusive(alloc: Global, races: &mut Races, n: u32) -> bool
    requires { 0 < n }
{
    match spawn_exclusive(alloc, n) {
        Some(action) => racing(races, root(alloc), action) == Some(0),
        None => false,
    }
}

/// Whether the store of the second child is told to be kept apart from that of the first by exclusion.
fn tells_exclusion(alloc: Global, races: &mut Races) -> bool {
    let started = racing(races, root(alloc), Action::Start);
    let spawned = spawns_exclusive(alloc, races, 1) && spawns_exclusive(alloc, races, 2);
    let first = stores(alloc, races, 1);
    let begun = racing(races, child(alloc, 2), Action::Start);
    let store = Action::Store { cell: 7, value: 2 };
    let apart = is_apart(races, child(alloc, 2), store);
    let calm = started == Some(0) && spawned && first == Some(0) && begun == Some(0);
    calm && apart == Some(true)
}

#[test]
fn both_stores_of_siblings_that_exclude_each_other_may_race(rt: HostRuntime) {
    let alloc = rt.alloc();
    let Ok(mut races) = Races::new(alloc) else {
        assert!(rt; false);
        return;
    };
    let right = tells_exclusion(alloc, &mut races);
    forget(races);
    assert!(rt; right);
}
