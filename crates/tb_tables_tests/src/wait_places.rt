//! Where a task is in the table, and what a name that comes back finds there.

use crate::wait::{child_again, child_of_root, has_child, spawn, unspawn};
use std::alloc::AllocGlobal;
use std::mem;
use std::process::Abort;
use tb_model::TaskName;
use tb_wait::Wait;

// The name of the task so many levels below the root, by the first child and the second in turn.
fn name_down(rt: &(impl Abort + AllocGlobal), levels: u32) -> TaskName {
    let mut task = TaskName::root(rt.alloc());
    for level in 0..levels {
        task = child_again(rt, &task, 1 + level % 2);
    }
    task
}

// Each task on the way there generates two children.
fn spawn_down(rt: &(impl Abort + AllocGlobal), table: &mut Wait, levels: u32) {
    let mut task = TaskName::root(rt.alloc());
    for level in 0..levels {
        assert!(rt; has_child(spawn(table, &task)));
        assert!(rt; has_child(spawn(table, &task)));
        task = child_again(rt, &task, 1 + level % 2);
    }
    mem::forget(task);
}

// Whether the child of the task with this ordinal is over, where it was ever generated.
fn is_child_over(
    rt: &(impl Abort + AllocGlobal),
    table: &Wait,
    task: &TaskName,
    number: u32,
) -> Option<bool> {
    let child = child_again(rt, task, number);
    let over = table.is_over(&child);
    mem::forget(child);
    over
}

/// A task is found by its ordinals from the root on, where nothing close to it was asked of.
#[test]
fn a_deep_task_is_found_by_its_numbers(rt: HostRuntime) {
    let mut table = Wait::open(rt.alloc()).expect(&rt, "memory is there");
    spawn_down(&rt, &mut table, 300);
    let root = TaskName::root(rt.alloc());
    let middle = name_down(&rt, 150);
    let deepest = name_down(&rt, 300);
    let below = child_again(&rt, &deepest, 1);
    assert_eq!(rt; table.turn_to(7, &deepest), Some(600));
    assert_eq!(rt; table.turn_to(7, &below), None);
    assert_eq!(rt; table.turn_to(0, &root), Some(0));
    assert_eq!(rt; table.children(&middle), Some(2));
    assert_eq!(rt; table.children(&deepest), Some(0));
    table.ended(&deepest);
    assert_eq!(rt; table.is_over(&deepest), Some(true));
    assert_eq!(rt; is_child_over(&rt, &table, &middle, 2), Some(false));
    assert_eq!(rt; is_child_over(&rt, &table, &middle, 3), None);
    assert_eq!(rt; is_child_over(&rt, &table, &deepest, 1), None);
    mem::forget(below);
    mem::forget(middle);
    mem::forget(deepest);
    mem::forget(root);
    mem::forget(table);
}

// The index of the root's child with this ordinal, as it is asked for by itself and in a walk.
fn child_places(rt: &(impl Abort + AllocGlobal), table: &Wait, number: u32) -> [Option<usize>; 2] {
    let child = child_of_root(rt, number);
    let mut near = 0;
    let places = [table.place(0, &child), table.walk_place(&mut near, &child)];
    mem::forget(child);
    places
}

// Which of the parent's first three children were ever generated.
fn known_children(rt: &(impl Abort + AllocGlobal), table: &Wait, parent: &TaskName) -> [bool; 3] {
    let mut known = [false; 3];
    for number in 1..4 {
        let child = child_again(rt, parent, number);
        known[number as usize - 1] = table.is_known(parent, &child);
        mem::forget(child);
    }
    known
}

/// A task retains its index where its spawn is undone, and one that is new comes after all others.
#[test]
fn a_task_keeps_its_place(rt: HostRuntime) {
    let mut table = Wait::open(rt.alloc()).expect(&rt, "memory is there");
    let root = TaskName::root(rt.alloc());
    let first = child_of_root(&rt, 1);
    assert!(rt; has_child(spawn(&mut table, &root)));
    assert!(rt; has_child(spawn(&mut table, &root)));
    assert_eq!(rt; child_places(&rt, &table, 1), [Some(1); 2]);
    assert_eq!(rt; child_places(&rt, &table, 2), [Some(2); 2]);
    assert_eq!(rt; child_places(&rt, &table, 3), [None; 2]);
    assert!(rt; matches!(unspawn(&mut table, &root), Ok(true)));
    assert_eq!(rt; child_places(&rt, &table, 2), [Some(2); 2]);
    assert_eq!(rt; known_children(&rt, &table, &root), [true, true, false]);
    assert!(rt; has_child(spawn(&mut table, &first)));
    assert!(rt; has_child(spawn(&mut table, &root)));
    assert_eq!(rt; child_places(&rt, &table, 2), [Some(2); 2]);
    assert!(rt; has_child(spawn(&mut table, &root)));
    assert_eq!(rt; child_places(&rt, &table, 3), [Some(4); 2]);
    mem::forget(first);
    mem::forget(root);
    mem::forget(table);
}
