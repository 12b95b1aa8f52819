//! The nearest children of one: of each storage location that it names, the last items of one kind
//! in front of it that come before it. It depends on these, and by way of them on all on which it
//! depends.

ghost use Rattle.std.specs.Prelude.{◌≡◌, ◌<◌, ◌≤◌, IfOk, OnOk, IsTrue, length};
ghost use Rattle.tb_depend.specs.Layout.{AreEnds, rows_from};
ghost use Rattle.tb_depend.specs.Nearness.{AddsNear, AreNear, IsLastBefore, IsParted, IsPassed, is_among};

use crate::chain::Chain;
use crate::layout::bounds;
use crate::near::child_at;
use crate::steps::{is_before, is_met};
use std::alloc::{AllocError, Global};
use tb_model::{Item, Place};

/// Whether the item is between two at each storage location at which these meet. Two of all memory
/// meet where no other item does, too.
fn parts(mid: Item, new: Item, old: Item) -> bool
    ensures { IsTrue result → IsParted mid new old }
{
    match new.place {
        Place::Cell(_) => is_met(new, mid),
        Place::All => is_before(new, mid) && (mid.place == Place::All || old.place != Place::All),
    }
}

/// Whether one of the items after the one at this index comes after it, up to the last one that
/// comes before the new one, at each storage location at which the two meet.
fn is_passed(chain: &Chain, new: Item, at: usize, last: usize) -> bool
    requires within { (at < last) × (last ≤ length chain.now.items) }
    requires before { IsLastBefore chain.now.items new last }
    ensures { IsTrue result → IsPassed chain.now.items new at last }
{
    let old = chain.item(at);
    for k in at + 1..last {
        let mid = chain.item(k);
        if is_before(mid, old) && parts(mid, new, old) {
            return true;
        }
    }
    false
}

/// Adds the children whose items are nearest to the new one, of the first `from` items.
fn add_near(
    chain: &Chain,
    ends: &[usize],
    new: Item,
    from: usize,
    near: &mut Vec<usize>,
) -> Result<(), AllocError>
    requires ends { AreEnds 0 ends.now (length chain.now.items) }
    requires from { from ≤ length chain.now.items }
    ensures { OnOk result (AddsNear ends.now chain.now.items new from near.old.items near.new.items) }
{
    let last = chain.last_before(new, from);
    let mut at = last;
    while at > 0 {
        if !is_passed(chain, new, at - 1, last) {
            near.push(child_at(ends, at - 1))?;
        }
        at = chain.last_before(new, at - 1);
    }
    Ok(())
}

/// The nearest children of the nth, in no order, and some of them more than once.
pub(crate) fn near_numbers(
    alloc: Global,
    chain: &Chain,
    ends: &[usize],
    n: usize,
) -> Result<Vec<usize>, AllocError>
    requires { AreEnds 0 ends.now (length chain.now.items) }
    ensures { IfOk result (λ near. AreNear (rows_from 0 ends.now chain.now.items) n near.items) }
{
    let (from, to) = bounds(chain.items(), ends, n);
    let mut near = Vec::new(alloc);
    for item in from..to {
        add_near(chain, ends, chain.item(item), from, &mut near)?;
    }
    Ok(near)
}

/// Whether the ordinal is one of these.
pub(crate) fn is_among(near: &[usize], m: usize) -> bool
    ensures { result ≡ is_among near.now m }
{
    near.iter().any(|k| *k == m)
}
