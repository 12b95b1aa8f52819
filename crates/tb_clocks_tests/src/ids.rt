//! The ids of a few tasks.

ghost use Rattle.std.specs.Prelude.{◌<◌};

use crate::tasks::{second, spawn};
use std::alloc::Global;
use std::mem::forget;
use tb_clocks::Ids;
use tb_model::{Event, TaskName};

/// The root generates its nth child; whether there was memory for it.
fn spawns(alloc: Global, ids: &mut Ids, n: u32) -> bool
    requires { 0 < n }
{
    let root = TaskName::root(alloc);
    let Ok(child) = root.child(n) else {
        return false;
    };
    let Some(action) = spawn(alloc, child, true) else {
        return false;
    };
    let event = Event { task: root, action };
    let taken = ids.push(&event.action).is_ok();
    forget(event);
    taken
}

#[test]
fn tasks_are_counted_in_the_order_of_spawning(rt: HostRuntime) {
    let Ok(mut ids) = Ids::new(rt.alloc()) else {
        assert!(rt; false);
        return;
    };
    let root = TaskName::root(rt.alloc());
    let child = second(rt.alloc());
    let first = ids.id(0, &root);
    let none = ids.id(0, &child);
    let taken = spawns(rt.alloc(), &mut ids, 1) && spawns(rt.alloc(), &mut ids, 2);
    let last = ids.id(0, &child);
    forget(ids);
    assert!(rt; first == Some(0));
    assert!(rt; none.is_none());
    assert!(rt; taken);
    assert!(rt; last == Some(2));
}
