//! The order of names, what undoing needs, and calls with little memory.

use std::alloc::{AllocError, AllocGlobal, Global};
use std::mem;
use std::process::Abort;
use tb_model::TaskName;
use tb_ready::Ready;

/// The name with these ordinals, from the root down.
fn name(alloc: Global, numbers: &[u32]) -> Result<TaskName, AllocError> {
    let mut name = TaskName::root(alloc);
    for n in numbers {
        name = name.child(1.max(*n))?;
    }
    Ok(name)
}

/// Adds the names, one after another.
fn add_all(alloc: Global, ready: &mut Ready, rows: &[&[u32]]) -> Result<(), AllocError> {
    for numbers in rows {
        ready.add(name(alloc, *numbers)?)?;
    }
    Ok(())
}

/// Marks the names, and returns whether none of them was marked.
fn mark_each(alloc: Global, ready: &mut Ready, rows: &[&[u32]]) -> Result<bool, AllocError> {
    let mut fresh = true;
    for numbers in rows {
        let name = name(alloc, *numbers)?;
        fresh = fresh && !ready.can(&name);
        ready.mark(&name, true);
    }
    Ok(fresh)
}

/// Whether each of the names is the least once those in front of it are skipped, and then none is.
fn come_in_order(alloc: Global, ready: &Ready, rows: &[&[u32]]) -> Result<bool, AllocError> {
    let mut skip = Vec::new(alloc);
    for numbers in rows {
        let name = name(alloc, *numbers)?;
        if ready.least(&skip) != Some(&name) {
            return Ok(false);
        }
        skip.push(name)?;
    }
    Ok(ready.least(&skip).is_none())
}

/// Whether the name is the one at this index.
fn stands_at(alloc: Global, ready: &Ready, at: usize, numbers: &[u32]) -> Result<bool, AllocError> {
    let name = name(alloc, numbers)?;
    Ok(ready.nth(at) == Some(&name))
}

const ADDED: [&[u32]; 5] = [&[10], &[9, 1], &[9], &[], &[1, 2, 3]];

const BY_NAME: [&[u32]; 5] = [&[], &[1, 2, 3], &[9], &[9, 1], &[10]];

#[test]
fn the_least_marked_name_comes_first(rt: HostRuntime) {
    let alloc = rt.alloc();
    let mut ready = Ready::new(alloc);
    assert!(rt; add_all(alloc, &mut ready, ADDED.as_slice()).is_ok());
    assert_eq!(rt; ready.len(), 5);
    assert_eq!(rt; come_in_order(alloc, &ready, &[]), Ok(true));
    assert_eq!(rt; mark_each(alloc, &mut ready, ADDED.as_slice()), Ok(true));
    assert_eq!(rt; come_in_order(alloc, &ready, BY_NAME.as_slice()), Ok(true));
    assert_eq!(rt; stands_at(alloc, &ready, 1, [9, 1].as_slice()), Ok(true));
    assert!(rt; ready.nth(5).is_none());
    mem::forget(ready);
}

fn names_of(alloc: Global, rows: &[&[u32]]) -> Result<Vec<TaskName>, AllocError> {
    let mut names = Vec::new(alloc);
    for numbers in rows {
        names.push(name(alloc, *numbers)?)?;
    }
    Ok(names)
}

/// Adds the names at these indexes, one after another, and marks them.
fn mark_all(ready: &mut Ready, names: &[TaskName], places: &[usize]) -> Result<(), AllocError> {
    for at in places {
        if let Some(name) = names.get(*at) {
            ready.add(name.clone()?)?;
            ready.mark(name, true);
        }
    }
    Ok(())
}

/// Whether the walk says where the name is.
fn is_at(ready: &Ready, walk: usize, name: &TaskName) -> bool {
    match ready.index_in(walk) {
        Some(index) => ready.nth(index) == Some(name),
        None => false,
    }
}

/// Whether these are all the marked names, in order, each where a walk over them says.
fn are_marked(ready: &Ready, names: &[TaskName]) -> bool {
    let mut walk = 0;
    let mut after = None;
    for name in names {
        if ready.walk_marked(&mut walk, after) != Some(name) || !is_at(ready, walk, name) {
            return false;
        }
        after = Some(name);
    }
    ready.next_marked(after).is_none()
}

/// Whether the others are all the marked names once the first isn't marked.
fn follow_without_the_first(ready: &mut Ready, names: &[TaskName]) -> bool {
    let Some((first, others)) = names.split_first() else {
        return false;
    };
    // wherever it is looked for first
    ready.mark_near(1, first, false);
    are_marked(ready, others)
}

#[test]
fn the_marked_names_follow_in_order(rt: HostRuntime) {
    let rows: [&[u32]; 4] = [
        [].as_slice(),
        [1].as_slice(),
        [1, 3].as_slice(),
        [2].as_slice(),
    ];
    let names = names_of(rt.alloc(), rows.as_slice()).expect(&rt, "memory is there");
    let mut ready = Ready::new(rt.alloc());
    assert!(rt; are_marked(&ready, &names[..0]));
    let places = [3_usize, 2, 0, 1];
    mark_all(&mut ready, &names, places.as_slice()).expect(&rt, "memory is there");
    assert!(rt; are_marked(&ready, &names));
    assert!(rt; follow_without_the_first(&mut ready, &names));
    mem::forget(names);
    mem::forget(ready);
}

/// The root, and a child for which the capacity was made first.
fn add_child(alloc: Global, ready: &mut Ready, child: &TaskName) -> Result<(), AllocError> {
    ready.add(TaskName::root(alloc))?;
    let named = child.clone()?;
    ready.reserve_add(&named)?;
    ready.add(named)
}

/// An end of the child and its undo, and then its spawn's undo, after which a mark changes nothing.
fn end_and_undo(rt: &(impl Abort + AllocGlobal), ready: &mut Ready, child: &TaskName) {
    ready.mark(child, false);
    assert!(rt; ready.is_there(child) && !ready.can(child));
    ready.mark(child, true);
    assert!(rt; ready.least(&[]) == Some(child));
    ready.remove(child);
    assert!(rt; !ready.is_there(child) && !ready.can(child));
    ready.mark(child, true);
    ready.remove(child);
    assert!(rt; ready.len() == 1 && ready.least(&[]).is_none());
}

/// Adds the child once more.
fn add_again(ready: &mut Ready, child: &TaskName) -> Result<(), AllocError> {
    ready.add(child.clone()?)
}

#[test]
fn an_end_and_its_undo_take_no_memory(rt: HostRuntime) {
    let child = name(rt.alloc(), [1].as_slice()).expect(&rt, "memory is there");
    let mut ready = Ready::new(rt.alloc());
    assert!(rt; add_child(rt.alloc(), &mut ready, &child).is_ok());
    ready.mark(&child, true);
    assert!(rt; add_again(&mut ready, &child).is_ok());
    assert!(rt;
        ready.can(&child) && ready.len() == 2,
        "one that is there stays as it is"
    );
    end_and_undo(&rt, &mut ready, &child);
    assert!(rt; add_again(&mut ready, &child).is_ok());
    assert!(rt;
        ready.is_there(&child) && !ready.can(&child),
        "a new name is unmarked"
    );
    mem::forget(child);
    mem::forget(ready);
}

/// Adds the name after a reserve for it, which is made again where it was refused.
fn add_reserved(
    rt: &(impl Abort + AllocGlobal),
    ready: &mut Ready,
    child: TaskName,
) -> Result<(), AllocError> {
    let before = ready.len();
    if ready.reserve_add(&child).is_err() {
        assert_eq!(rt; ready.len(), before);
        ready.reserve_add(&child)?;
    }
    ready.add(child)
}

/// Adds the name, and again where memory was refused.
fn add_twice(
    rt: &(impl Abort + AllocGlobal),
    ready: &mut Ready,
    child: &TaskName,
) -> Result<(), AllocError> {
    let before = ready.len();
    if ready.add(child.clone()?).is_err() {
        assert!(rt; ready.len() == before && !ready.is_there(child));
        ready.add(child.clone()?)?;
    }
    Ok(())
}

/// The nth child of the root is added, and every other one marked.
fn grow(rt: &(impl Abort + AllocGlobal), ready: &mut Ready, n: u32) -> Result<(), AllocError> {
    let child = name(rt.alloc(), [n].as_slice())?;
    if n % 3 == 0 {
        add_reserved(rt, ready, child.clone()?)?;
    } else {
        add_twice(rt, ready, &child)?;
    }
    assert!(rt; ready.is_there(&child));
    ready.mark(&child, n % 2 == 0);
    Ok(())
}

fn is_marked(alloc: Global, ready: &Ready, n: u32) -> Result<bool, AllocError> {
    let child = name(alloc, [n].as_slice())?;
    Ok(ready.can(&child))
}

/// A call that was refused changes nothing, and made again it answers as it would have at first.
#[test]
fn a_refused_growth_changes_nothing(rt: HostRuntime) {
    let mut ready = Ready::new(rt.alloc());
    for n in 1..40u32 {
        if grow(&rt, &mut ready, n).is_err() {
            assert!(rt; grow(&rt, &mut ready, n).is_ok());
        }
    }
    assert_eq!(rt; ready.len(), 39);
    for n in 1..40u32 {
        assert_eq!(rt; is_marked(rt.alloc(), &ready, n), Ok(n % 2 == 0));
    }
    mem::forget(ready);
}
