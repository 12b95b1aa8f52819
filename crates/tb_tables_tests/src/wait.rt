//! Tests that each call of the table of children and groups succeeds, and calls with little memory.

use std::alloc::{AllocError, AllocGlobal};
use std::mem;
use std::process::Abort;
use tb_model::TaskName;
use tb_wait::Wait;

// The parent generates its next child, up to its fourth.
pub fn spawn(table: &mut Wait, parent: &TaskName) -> Result<Option<TaskName>, AllocError> {
    let Some(n) = table.children(parent) else {
        return Ok(None);
    };
    if n > 3 {
        return Ok(None);
    }
    let child = parent.child(n + 1)?;
    let name = child.clone()?;
    table.reserve_spawned(parent, &child)?;
    table.spawned(parent, child)?;
    Ok(Some(name))
}

// The parent's last spawn is undone, where its child has done nothing.
pub fn unspawn(table: &mut Wait, parent: &TaskName) -> Result<bool, AllocError> {
    let Some(n) = table.children(parent) else {
        return Ok(false);
    };
    if n == 0 {
        return Ok(false);
    }
    let child = parent.child(n)?;
    if !table.is_fresh(&child) {
        return Ok(false);
    }
    table.unspawned(parent, &child);
    Ok(true)
}

// The task generates its next child, and again where memory was refused.
fn spawn_again(rt: &impl Abort, table: &mut Wait, task: &TaskName, n: u32) {
    if is_refused(spawn(table, task)) {
        assert_eq!(rt; table.children(task), Some(n));
        assert!(rt; has_child(spawn(table, task)));
    }
    assert_eq!(rt; table.children(task), Some(n.wrapping_add(1)));
}

fn is_refused(spawned: Result<Option<TaskName>, AllocError>) -> bool {
    spawned.is_err()
}

pub fn has_child(spawned: Result<Option<TaskName>, AllocError>) -> bool {
    matches!(&spawned, Ok(Some(_)))
}

// The task opens a group, and again where memory was refused.
fn open_again(rt: &impl Abort, table: &mut Wait, task: &TaskName) {
    let groups = table.groups(task).len();
    if table.opened(task).is_err() {
        assert_eq!(rt; table.groups(task).len(), groups);
        assert!(rt; table.opened(task).is_ok());
    }
    assert_eq!(rt; table.groups(task).len(), groups.wrapping_add(1));
}

// The name of the task's child, and again where memory was refused.
pub fn child_again(rt: &(impl Abort + AllocGlobal), task: &TaskName, number: u32) -> TaskName {
    match task.child(1.max(number)) {
        Ok(child) => child,
        Err(_) => task
            .child(1.max(number))
            .expect(rt, "memory is there again"),
    }
}

// The task generates four children, each in a group of its own, and the first is the least. Then it
// opens a fifth group, which the row itself can't hold.
fn grow(rt: &(impl Abort + AllocGlobal), table: &mut Wait, task: &TaskName) {
    for n in 0..4u32 {
        spawn_again(rt, table, task, n);
        open_again(rt, table, task);
    }
    open_again(rt, table, task);
    let first = child_again(rt, task, 1);
    assert!(rt; table.first_child(task) == Some(&first));
}

/// A call that was refused changes nothing, and made again it answers as it would have at first.
#[test]
fn a_refused_growth_changes_nothing(rt: HostRuntime) {
    let mut table = match Wait::open(rt.alloc()) {
        Ok(table) => table,
        Err(_) => Wait::open(rt.alloc()).expect(&rt, "memory is there again"),
    };
    let mut task = TaskName::root(rt.alloc());
    for _ in 0..5 {
        grow(&rt, &mut table, &task);
        task = child_again(&rt, &task, 4);
    }
    mem::forget(task);
    mem::forget(table);
}

// The child of the root with this ordinal.
pub fn child_of_root(rt: &(impl Abort + AllocGlobal), number: u32) -> TaskName {
    TaskName::root(rt.alloc())
        .child(1.max(number))
        .expect(rt, "memory is there")
}

// The root generates four children, of which the second ends.
fn spawn_four(rt: &(impl Abort + AllocGlobal), table: &mut Wait, root: &TaskName) {
    assert_eq!(rt; table.next_unended(root, 0), None);
    for _ in 0..4 {
        assert!(rt; has_child(spawn(table, root)));
    }
    table.ended(&child_of_root(rt, 2));
}

// The first unended child of the root's child with this ordinal, above no ordinal.
fn next_of_child(rt: &(impl Abort + AllocGlobal), table: &Wait, number: u32) -> Option<u32> {
    let child = child_of_root(rt, number);
    let next = table.next_unended(&child, 0);
    mem::forget(child);
    next
}

// The first unended child of the task above each of the ordinals from 0 to 4.
fn next_above(table: &Wait, task: &TaskName) -> [Option<u32>; 5] {
    [
        table.next_unended(task, 0),
        table.next_unended(task, 1),
        table.next_unended(task, 2),
        table.next_unended(task, 3),
        table.next_unended(task, 4),
    ]
}

const ABOVE: [Option<u32>; 5] = [Some(1), Some(3), Some(3), Some(4), None];

#[test]
fn the_unended_children_are_walked_by_number(rt: HostRuntime) {
    let mut table = Wait::open(rt.alloc()).expect(&rt, "memory is there");
    let root = TaskName::root(rt.alloc());
    spawn_four(&rt, &mut table, &root);
    assert!(rt; next_above(&table, &root) == ABOVE);
    assert_eq!(rt; next_of_child(&rt, &table, 2), None);
    assert_eq!(rt; next_of_child(&rt, &table, 5), None);
    mem::forget(root);
    mem::forget(table);
}

/// A group has the children that are generated in it, until it is closed.
#[test]
fn a_group_has_those_that_are_generated_in_it(rt: HostRuntime) {
    let mut table = Wait::open(rt.alloc()).expect(&rt, "memory is there");
    let root = TaskName::root(rt.alloc());
    let member = child_of_root(&rt, 2);
    assert!(rt; has_child(spawn(&mut table, &root)));
    assert!(rt; table.opened(&root).is_ok());
    assert!(rt; table.first_member(&root).is_none());
    assert!(rt; has_child(spawn(&mut table, &root)));
    assert!(rt; table.first_member(&root) == Some(&member));
    table.ended(&member);
    assert!(rt; table.first_member(&root).is_none());
    table.unended(&member);
    table.closed(&root);
    assert_eq!(rt; table.groups(&root).len(), 0);
    table.unclosed(&root);
    assert!(rt; table.first_member(&root) == Some(&member));
    assert!(rt; matches!(unspawn(&mut table, &root), Ok(true)));
    table.unopened(&root);
    assert_eq!(rt; table.groups(&root).len(), 0);
    mem::forget(member);
    mem::forget(root);
    mem::forget(table);
}
