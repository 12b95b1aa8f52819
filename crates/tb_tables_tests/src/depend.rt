//! The table of dependences by OpenMP 5.2, 15.9.5 depend Clause, and calls with little memory.

use std::alloc::AllocError;
use std::mem;
use std::process::Abort;
use tb_depend::{Over, Preds, Siblings};
use tb_model::{Item, Kind, Place};

fn item(kind: Kind, cell: u32) -> Item {
    Item {
        kind,
        place: Place::Cell(cell),
    }
}

fn all(kind: Kind) -> Item {
    Item {
        kind,
        place: Place::All,
    }
}

/// Whether these are the ordinals of the answer.
pub(crate) fn lists(answer: Result<Preds, AllocError>, numbers: &[usize]) -> bool {
    match answer {
        Ok(found) => found.as_slice() == numbers,
        Err(_) => false,
    }
}

/// Whether a child with this item of cell 0 depends on those with these ordinals.
fn follows(siblings: &mut Siblings, kind: Kind, numbers: &[usize]) -> bool {
    lists(siblings.add([item(kind, 0)].as_slice()), numbers)
}

#[test]
fn a_writer_waits_for_both_readers(rt: HostRuntime) {
    let mut siblings = Siblings::new(rt.alloc());
    assert!(rt; follows(&mut siblings, Kind::In, &[]));
    assert!(rt; follows(&mut siblings, Kind::In, &[]));
    assert!(rt; follows(&mut siblings, Kind::Out, [1, 2].as_slice()));
    assert!(rt; follows(&mut siblings, Kind::In, [3].as_slice()));
    assert_eq!(rt; siblings.len(), 4);
    assert!(rt; siblings.is_before(1, 3) && siblings.is_before(3, 4));
    assert!(rt; !siblings.is_before(3, 1) && !siblings.is_before(1, 2));
    siblings.drop_last();
    siblings.drop_last();
    assert!(rt; follows(&mut siblings, Kind::Inout, [1, 2].as_slice()));
    mem::forget(siblings);
}

/// Children without items are only counted, until one comes with an item: then all have their
/// ordinals.
#[test]
fn a_child_with_an_item_follows_children_without(rt: HostRuntime) {
    let mut siblings = Siblings::new(rt.alloc());
    assert!(rt; lists(siblings.add(&[]), &[]));
    assert!(rt; lists(siblings.add(&[]), &[]));
    siblings.drop_last();
    assert!(rt; lists(siblings.add(&[]), &[]));
    assert_eq!(rt; siblings.len(), 2);
    assert!(rt; follows(&mut siblings, Kind::Out, &[]));
    assert!(rt; lists(siblings.add(&[]), &[]));
    assert!(rt; follows(&mut siblings, Kind::In, [3].as_slice()));
    assert!(rt; siblings.items(2).is_empty() && siblings.items(3).len() == 1);
    for _ in 0..4u32 {
        siblings.drop_last();
    }
    assert_eq!(rt; siblings.len(), 1);
    assert!(rt; follows(&mut siblings, Kind::In, &[]));
    mem::forget(siblings);
}

/// All children are over but these two, whatever depends on them: an answer says whether they are
/// asked.
#[derive(Drop)]
struct AllBut {
    child: usize,
    other: usize,
}

impl Over for AllBut {
    ghost use Rattle.std.specs.Prelude.{not, nat_eq, ◌&&◌};

    ghost over = { λ a n. not (nat_eq n a.child) && not (nat_eq n a.other) };

    fn is_over(&self, child: usize) -> bool {
        child != self.child && child != self.other
    }
}

/// Of siblings that read, write, read, read and write one cell, the nearest ones of each are none,
/// 1, 2, 2, and 3 and 4. The others aren't asked, and by 4 not even 2, where 3 is over, which reads
/// as 4 does.
#[test]
fn only_those_near_are_asked(rt: HostRuntime) {
    let mut siblings = Siblings::new(rt.alloc());
    assert!(rt; follows(&mut siblings, Kind::In, &[]));
    assert!(rt; follows(&mut siblings, Kind::Out, [1].as_slice()));
    assert!(rt; follows(&mut siblings, Kind::In, [2].as_slice()));
    assert!(rt; follows(&mut siblings, Kind::In, [2].as_slice()));
    assert!(rt; follows(&mut siblings, Kind::Out, [1, 2, 3, 4].as_slice()));
    for child in 1..6usize {
        let asked = AllBut { child, other: 0 };
        assert!(rt; siblings.are_preds_over(1, &asked));
        assert_eq!(rt; siblings.are_preds_over(2, &asked), child != 1);
        assert_eq!(rt; siblings.are_preds_over(3, &asked), child != 2);
        assert!(rt; siblings.are_preds_over(4, &asked));
        assert_eq!(rt;
            siblings.are_preds_over(5, &asked),
            child != 3 && child != 4
        );
    }
    let neither = AllBut { child: 2, other: 3 };
    assert!(rt; !siblings.are_preds_over(4, &neither));
    mem::forget(siblings);
}

/// Whether these are nearest to the child that was added last.
fn is_near(siblings: &Siblings, numbers: &[usize]) -> bool {
    lists(siblings.near(siblings.len()), numbers)
}

/// Adds a child with these items, and returns whether these are nearest to it.
fn comes_near(siblings: &mut Siblings, items: &[Item], numbers: &[usize]) -> bool {
    match siblings.add(items) {
        Ok(_) => is_near(siblings, numbers),
        Err(_) => false,
    }
}

/// Nearest to a child are the last ones of one kind, and where these are of its own kind, the ones
/// before.
#[test]
fn those_near_are_the_last_of_one_kind(rt: HostRuntime) {
    let mut siblings = Siblings::new(rt.alloc());
    assert!(rt; comes_near(&mut siblings, [item(Kind::In, 0)].as_slice(), &[]));
    assert!(rt;
        comes_near(
            &mut siblings,
            [item(Kind::Out, 0)].as_slice(),
            [1].as_slice()
        )
    );
    assert!(rt;
        comes_near(
            &mut siblings,
            [item(Kind::In, 0)].as_slice(),
            [2].as_slice()
        )
    );
    assert!(rt;
        comes_near(
            &mut siblings,
            [item(Kind::In, 0)].as_slice(),
            [2].as_slice()
        )
    );
    assert!(rt;
        comes_near(
            &mut siblings,
            [item(Kind::Out, 0)].as_slice(),
            [3, 4].as_slice()
        )
    );
    assert!(rt; comes_near(&mut siblings, [item(Kind::In, 1)].as_slice(), &[]));
    let both = [item(Kind::Inoutset, 0), item(Kind::Inoutset, 1)];
    assert!(rt; comes_near(&mut siblings, both.as_slice(), [5, 6].as_slice()));
    mem::forget(siblings);
}

/// An item of all memory comes between those of every storage location, also where there is no cell.
#[test]
fn all_memory_is_near_all(rt: HostRuntime) {
    let mut siblings = Siblings::new(rt.alloc());
    assert!(rt; comes_near(&mut siblings, [all(Kind::Out)].as_slice(), &[]));
    assert!(rt; comes_near(&mut siblings, [all(Kind::Inout)].as_slice(), [1].as_slice()));
    assert!(rt;
        comes_near(
            &mut siblings,
            [item(Kind::Out, 0)].as_slice(),
            [2].as_slice()
        )
    );
    assert!(rt;
        comes_near(
            &mut siblings,
            [item(Kind::In, 0)].as_slice(),
            [3].as_slice()
        )
    );
    assert!(rt;
        comes_near(
            &mut siblings,
            [item(Kind::In, 1)].as_slice(),
            [2].as_slice()
        )
    );
    assert!(rt;
        comes_near(
            &mut siblings,
            [all(Kind::Out)].as_slice(),
            [2, 4, 5].as_slice()
        )
    );
    mem::forget(siblings);
}

#[test]
fn exclusion_orders_nobody(rt: HostRuntime) {
    let mut siblings = Siblings::new(rt.alloc());
    let exclusive = [item(Kind::Mutexinoutset, 0), item(Kind::In, 1)];
    assert!(rt; lists(siblings.add(exclusive.as_slice()), &[]));
    assert!(rt; lists(siblings.add(exclusive.as_slice()), &[]));
    assert!(rt; siblings.is_apart(1, 2) && siblings.is_apart(2, 1));
    assert!(rt; !siblings.is_apart(1, 1) && !siblings.is_before(1, 2));
    assert!(rt; lists(siblings.apart(1), [2].as_slice()));
    assert!(rt; lists(siblings.apart(2), [1].as_slice()));
    assert_eq!(rt; siblings.items(2).len(), 2);
    mem::forget(siblings);
}

/// Whether a wait with this item covers the children with these ordinals.
fn covers_those(siblings: &Siblings, item: Item, numbers: &[usize]) -> bool {
    lists(siblings.covered([item].as_slice()), numbers)
}

#[test]
fn a_wait_covers_those_it_would_depend_on(rt: HostRuntime) {
    let mut siblings = Siblings::new(rt.alloc());
    assert!(rt; follows(&mut siblings, Kind::In, &[]));
    assert!(rt; lists(siblings.add([item(Kind::Out, 1)].as_slice()), &[]));
    assert!(rt; lists(siblings.add([].as_slice()), &[]));
    assert!(rt; lists(siblings.covered([].as_slice()), [1, 2, 3].as_slice()));
    assert!(rt; covers_those(&siblings, item(Kind::In, 0), &[]));
    assert!(rt; covers_those(&siblings, item(Kind::In, 1), [2].as_slice()));
    assert!(rt; covers_those(&siblings, all(Kind::Out), [1, 2].as_slice()));
    assert!(rt;
        siblings.covers([].as_slice(), 3) && !siblings.covers([all(Kind::Out)].as_slice(), 3)
    );
    mem::forget(siblings);
}

/// Adds a child after a reserve for it, which is made again where it was refused.
fn add_reserved(
    rt: &impl Abort,
    siblings: &mut Siblings,
    items: &[Item],
) -> Result<Preds, AllocError> {
    let before = siblings.len();
    if siblings.reserve_add(items).is_err() {
        assert_eq!(rt; siblings.len(), before);
        siblings.reserve_add(items)?;
    }
    Ok(siblings.add(items).unwrap())
}

/// Adds a child, and again where memory was refused.
fn add_twice(
    rt: &impl Abort,
    siblings: &mut Siblings,
    items: &[Item],
) -> Result<Preds, AllocError> {
    let before = siblings.len();
    if let Ok(preds) = siblings.add(items) {
        return Ok(preds);
    }
    assert_eq!(rt; siblings.len(), before);
    siblings.add(items)
}

/// How many the new child depends on. They are asked for again, and where memory was refused once
/// more.
fn grown(
    rt: &impl Abort,
    siblings: &mut Siblings,
    items: &[Item],
    reserves: bool,
) -> Option<usize> {
    let added = if reserves {
        add_reserved(rt, siblings, items)
    } else {
        add_twice(rt, siblings, items)
    };
    match added {
        Ok(preds) => {
            let numbers = preds.as_slice();
            let last = siblings.len();
            assert!(rt;
                lists(siblings.preds(last), numbers) || lists(siblings.preds(last), numbers)
            );
            Some(numbers.len())
        }
        Err(_) => None,
    }
}

/// How many a wait without items covers.
fn covered_count(siblings: &Siblings) -> Option<usize> {
    match siblings.covered([].as_slice()) {
        Ok(covered) => Some(covered.as_slice().len()),
        Err(_) => None,
    }
}

/// All children are covered by a wait without items, and none is stored apart from the first. Where
/// memory was refused they are asked for again.
fn ask(rt: &impl Abort, siblings: &Siblings) {
    let covered = match covered_count(siblings) {
        Some(count) => Some(count),
        None => covered_count(siblings),
    };
    assert_eq!(rt; covered, Some(siblings.len()));
    assert!(rt; lists(siblings.apart(1), &[]) || lists(siblings.apart(1), &[]));
}

/// A call that was refused changes nothing, and made again it answers as it would have at first.
#[test]
fn a_refused_growth_changes_nothing(rt: HostRuntime) {
    let mut siblings = Siblings::new(rt.alloc());
    let items = [all(Kind::Inout), item(Kind::In, 3)];
    for n in 0..24usize {
        let count = grown(&rt, &mut siblings, items.as_slice(), n % 3 == 0);
        assert_eq!(rt; count, Some(n));
        assert_eq!(rt; siblings.len(), n.wrapping_add(1));
        ask(&rt, &siblings);
    }
    mem::forget(siblings);
}
