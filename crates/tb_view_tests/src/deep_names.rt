//! Names of more levels than one block of numbers holds.

use std::cmp::Ordering;
use std::hash::{DefaultHasher, Hash, Hasher};
use std::mem;
use std::process::Abort;
use tb_model::TaskName;

/// The nth child, which are counted from 1.
fn child(rt: &impl Abort, name: &TaskName, n: u32) -> TaskName {
    name.child(1.max(n)).expect(rt, "memory is there")
}

fn hash_of(name: &TaskName) -> u64 {
    let mut hasher = DefaultHasher::new();
    name.hash(&mut hasher);
    hasher.finish()
}

/// What the child is to its parent, and its parent to it.
fn compare_parent(rt: &impl Abort, parent: &TaskName, child: &TaskName) {
    assert!(rt; parent.is_parent_of(child) && !child.is_parent_of(parent));
    assert!(rt; child.is_within(parent) && child.is_within(child) && !parent.is_within(child));
    assert!(rt; parent.cmp(child) == Ordering::Less && child.cmp(parent) == Ordering::Greater);
    let above = child.parent().expect(rt, "memory is there");
    assert!(rt; above.as_ref() == Some(parent));
    mem::forget(above);
}

/// Asserts that a name put together from its text is the same by equality, order and hash.
fn compare_text(rt: &(impl Abort + AllocGlobal), name: &TaskName) {
    let mut text = String::new(rt.alloc());
    name.print(&mut text).expect(rt, "memory is there");
    let again = TaskName::parse(rt.alloc(), text.as_bytes()).expect(rt, "a name");
    assert!(rt; again == *name && again.cmp(name) == Ordering::Equal);
    assert_eq!(rt; hash_of(&again), hash_of(name));
    mem::forget(again);
    mem::forget(text);
}

/// Whether the one is generated before the other by the task.
fn compare_siblings(rt: &impl Abort, parent: &TaskName, n: u32) {
    let (elder, younger) = (child(rt, parent, n), child(rt, parent, n.saturating_add(1)));
    assert!(rt; elder.is_elder_of(&younger) && !younger.is_elder_of(&elder));
    assert!(rt; elder != younger && elder.cmp(&younger) == Ordering::Less);
    assert!(rt; !elder.is_within(&younger) && !younger.is_within(&elder));
    mem::forget(elder);
    mem::forget(younger);
}

#[test]
fn names_of_three_hundred_levels(rt: HostRuntime) {
    let mut name = TaskName::root(rt.alloc());
    for level in 0..300u32 {
        let n = level % 12 + 1;
        let next = child(&rt, &name, n);
        compare_parent(&rt, &name, &next);
        compare_text(&rt, &next);
        compare_siblings(&rt, &name, n);
        mem::forget(mem::replace(&mut name, next));
    }
    mem::forget(name);
}

/// Names that differ at the root alone.
#[test]
fn names_that_differ_at_the_root(rt: HostRuntime) {
    let mut left = child(&rt, &TaskName::root(rt.alloc()), 1);
    let mut right = child(&rt, &TaskName::root(rt.alloc()), 2);
    for _ in 0..300u32 {
        assert!(rt; left != right && left.cmp(&right) == Ordering::Less);
        assert!(rt; hash_of(&left) != hash_of(&right));
        let (below, others) = (child(&rt, &left, 1), child(&rt, &right, 1));
        mem::forget(mem::replace(&mut left, below));
        mem::forget(mem::replace(&mut right, others));
    }
    mem::forget(left);
    mem::forget(right);
}
