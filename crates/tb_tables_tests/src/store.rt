//! Tests that calls succeed, and that what is taken back needs no memory.

use std::alloc::{AllocError, AllocGlobal};
use std::mem;
use std::process::Abort;
use tb_store::Store;

/// Writes the first cell and takes that back.
fn write_and_take_back(rt: &impl Abort, store: &mut Store) {
    assert!(rt; store.cells().len() == 2);
    let replaced = store.put(0, 7);
    assert_eq!(rt; store.get(0), 7);
    assert_eq!(rt; replaced.number, Some(5));
    store.put_back(0, replaced);
    assert!(rt; store.cells() == [5, 0].as_slice());
}

/// Prints after a reserve, and in the capacity of what was taken back.
fn say_and_take_back(store: &mut Store) -> Result<(), AllocError> {
    store.reserve_say()?;
    store.say(1).unwrap();
    store.say(2)?;
    store.unsay();
    store.say(3).unwrap();
    Ok(())
}

#[test]
fn writes_prints_and_takes_back(rt: HostRuntime) {
    let mut store = Store::open(rt.alloc(), &[5, 0]).expect(&rt, "memory is there");
    write_and_take_back(&rt, &mut store);
    assert!(rt; say_and_take_back(&mut store).is_ok());
    assert!(rt; store.output() == [1, 3].as_slice());
    mem::forget(store);
}

/// Prints after a reserve, which is made again where it was refused.
fn say_reserved(rt: &impl Abort, store: &mut Store) -> Result<(), AllocError> {
    let before = store.output().len();
    if store.reserve_say().is_err() {
        assert_eq!(rt; store.output().len(), before);
        store.reserve_say()?;
    }
    store.say(9).unwrap();
    assert_eq!(rt; store.output().len(), before.wrapping_add(1));
    Ok(())
}

/// Prints, and again where memory was refused, and takes it back.
fn say_and_unsay(rt: &impl Abort, store: &mut Store) -> Result<(), AllocError> {
    let before = store.output().len();
    if store.say(1).is_err() {
        assert_eq!(rt; store.output().len(), before);
        store.say(1)?;
    }
    store.unsay();
    assert_eq!(rt; store.output().len(), before);
    Ok(())
}

/// A call that was refused changes nothing, and made again it answers as it would have at first.
#[test]
fn a_refused_growth_changes_nothing(rt: HostRuntime) {
    let first = [5, 0, 7];
    let mut store = match Store::open(rt.alloc(), &first) {
        Ok(store) => store,
        Err(_) => Store::open(rt.alloc(), &first).expect(&rt, "memory is there again"),
    };
    for n in 0..40usize {
        assert!(rt; say_reserved(&rt, &mut store).is_ok());
        if n % 2 == 0 {
            assert!(rt; say_and_unsay(&rt, &mut store).is_ok());
        }
    }
    assert_eq!(rt; store.output().len(), 40);
    assert!(rt; store.cells() == first.as_slice());
    mem::forget(store);
}
