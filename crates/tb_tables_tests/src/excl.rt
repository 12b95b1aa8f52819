//! Tests that each call of the table of exclusion succeeds, and calls with little memory.

use std::alloc::{AllocError, AllocGlobal};
use std::mem;
use std::process::Abort;
use tb_excl::Holders;
use tb_model::{Item, Kind, Place, TaskName};

fn exclusive(cell: u32) -> Item {
    Item {
        kind: Kind::Mutexinoutset,
        place: Place::Cell(cell),
    }
}

const ALL: [Item; 1] = [Item {
    kind: Kind::Mutexinoutset,
    place: Place::All,
}];

// The children that exclude one that takes the first cell, one that takes all, and one that reads.
fn told(table: &Holders) -> [Option<u32>; 3] {
    let first = [exclusive(0)];
    let reads = [Item {
        kind: Kind::In,
        place: Place::Cell(0),
    }];
    [
        table.busy_number(first.as_slice()),
        table.busy_number(ALL.as_slice()),
        table.busy_number(reads.as_slice()),
    ]
}

// Whether the child with this ordinal is the one that excludes a task from the first cell.
fn names_child(table: &Holders, number: u32) -> Result<bool, AllocError> {
    let first = [exclusive(0)];
    let child = table.parent().child(1.max(number))?;
    match table.busy(first.as_slice()) {
        Ok(Some(busy)) => Ok(busy == child),
        Ok(None) => Ok(false),
        Err(refused) => Err(refused),
    }
}

// What is returned after each call: the second child takes both cells after a reserve for them,
// ends, its end is undone, and its start, and then the first child takes all memory.
fn take_and_give_back(
    table: &mut Holders,
    both: &[Item],
) -> Result<[[Option<u32>; 3]; 5], AllocError> {
    table.reserve_take(2, both)?;
    table.take(2, both).unwrap();
    let taken = told(table);
    table.release(both);
    let released = told(table);
    table.unrelease(2, both);
    let held = told(table);
    table.untake(both);
    let free = told(table);
    table.take(1, ALL.as_slice()).unwrap();
    Ok([taken, released, held, free, told(table)])
}

const TOLD: [[Option<u32>; 3]; 5] = [
    [Some(2), Some(2), None],
    [None, None, None],
    [Some(2), Some(2), None],
    [None, None, None],
    [Some(1), Some(1), None],
];

#[test]
fn each_call_succeeds(rt: HostRuntime) {
    let both = [exclusive(0), exclusive(1)];
    let parent = TaskName::root(rt.alloc())
        .child(3)
        .expect(&rt, "memory is there");
    let mut table = Holders::new(rt.alloc(), parent);
    assert!(rt; table.take(2, both.as_slice()).is_ok());
    assert_eq!(rt; table.holder(Place::Cell(1)), Some(2));
    assert_eq!(rt; names_child(&table, 2), Ok(true));
    table.untake(both.as_slice());
    let behind = take_and_give_back(&mut table, both.as_slice()).expect(&rt, "memory is there");
    assert!(rt; behind == TOLD);
    mem::forget(table);
}

// The child takes two cells, and again where memory was refused. It ends, and its end is undone.
fn grow(
    rt: &(impl Abort + AllocGlobal),
    table: &mut Holders,
    number: u32,
) -> Result<(), AllocError> {
    assert!(rt; number > 0);
    let items = [exclusive(number), exclusive(number.wrapping_add(100))];
    if table.take(number, items.as_slice()).is_err() {
        assert_eq!(rt; table.busy_number(items.as_slice()), None);
        table.take(number, items.as_slice())?;
    }
    assert_eq!(rt; table.busy_number(items.as_slice()), Some(number));
    table.release(items.as_slice());
    table.unrelease(number, items.as_slice());
    Ok(())
}

/// A call that was refused changes nothing, and made again it answers as it would have at first.
#[test]
fn a_refused_growth_changes_nothing(rt: HostRuntime) {
    let mut table = Holders::new(rt.alloc(), TaskName::root(rt.alloc()));
    for number in 1..41u32 {
        assert!(rt; grow(&rt, &mut table, number).is_ok());
    }
    mem::forget(table);
}
