//! Whether all on which a child depends are over, by its nearest ones: of each storage location
//! that it names the last items of one kind in front of it, and after those no other. Where these
//! are over, so is what they depend on, and so down to the first.

ghost use Rattle.std.specs.Prelude.{◌≡◌, ◌<◌, ◌≤◌, ◌+◌, ℕ, IsTrue, Some, ◌↔◌, length, slice_get};
ghost use Rattle.tb_model.specs.declared.item.Item.{Item as AnItem};
ghost use Rattle.tb_model.specs.declared.place.Place.TheVariants.{Cell};
ghost use Rattle.tb_depend.specs.Chains.{is_met};
ghost use Rattle.tb_depend.specs.Layout.{AreEnds, rows_from};
ghost use Rattle.tb_depend.specs.Nearness.{IsClosed, AreOver, AreOverFor, child_at, AreItemsClosed, AreItemsOver};

use crate::chain::Chain;
use crate::layout::bounds;
use crate::over::Over;
use crate::steps::{comes_behind, comes_behind_all, is_before, is_met};
use tb_model::{Item, Place};

/// The ordinal of the child whose item is at this index. Mostly the children have as many items
/// each, so it is tried first where it is by proportion.
pub(crate) fn child_at(ends: &[usize], at: usize) -> usize
    requires { (len : ℕ) × AreEnds 0 ends.now len }
    ensures { result ≡ child_at ends.now at }
{
    let guess = proportion(ends, at);
    if are_in_front(ends, guess, at) {
        return guess + 1;
    }
    ends.partition_point(|end| *end <= at) + 1
}

/// How many children have their items in front of the index, where all have as many. Any ordinal
/// does.
fn proportion(ends: &[usize], at: usize) -> usize {
    match ends.last() {
        Some(last) if *last > 0 => at.saturating_mul(ends.len()) / *last,
        _ => 0,
    }
}

/// Whether so many children, and no more, have their items in front of the index.
fn are_in_front(ends: &[usize], count: usize, at: usize) -> bool
    requires { (len : ℕ) × AreEnds 0 ends.now len }
    ensures child { IsTrue result → count + 1 ≡ child_at ends.now at }
    ensures within { IsTrue result → count < length ends.now }
{
    if count >= ends.len() || ends[count] <= at {
        return false;
    }
    count == 0 || ends[count - 1] <= at
}

fn is_over<T: Over>(over: &T, ends: &[usize], at: usize) -> bool
    requires { (len : ℕ) × AreEnds 0 ends.now len }
    ensures { result ≡ T.over over.now (child_at ends.now at) }
{
    over.is_over(child_at(ends, at))
}

/// Whether those of the first `from` items that come before one of all memory are over.
fn all_over<T: Over>(chain: &Chain, ends: &[usize], new: Item, from: usize, over: &T) -> bool
    requires ends { AreEnds 0 ends.now (length chain.now.items) }
    requires from { from ≤ length chain.now.items }
    ensures { AreItemsClosed chain.now.items (λ k. T.over over.now (child_at ends.now k)) →
        IsTrue result ↔ AreItemsOver chain.now.items
        (λ k. T.over over.now (child_at ends.now k)) new from }
{
    let mut at = from;
    while at > 0 {
        at -= 1;
        let old = chain.item(at);
        if is_before(new, old) {
            if !is_over(over, ends, at) {
                return false;
            }
            if matches!(old.place, Place::All) && comes_behind_all(old.kind) {
                return true;
            }
        }
    }
    true
}

/// Whether those of the first `from` items that come before one of a cell are over.
fn cell_over<T: Over>(chain: &Chain, ends: &[usize], new: Item, from: usize, over: &T) -> bool
    requires ends { AreEnds 0 ends.now (length chain.now.items) }
    requires from { from ≤ length chain.now.items }
    requires a_cell { (c : ℕ) × (new.place ≡ Cell c) }
    ensures { AreItemsClosed chain.now.items (λ k. T.over over.now (child_at ends.now k)) →
        IsTrue result ↔ AreItemsOver chain.now.items
        (λ k. T.over over.now (child_at ends.now k)) new from }
{
    let mut at = chain.last_before(new, from);
    if at == 0 {
        return true;
    }
    if !is_over(over, ends, at - 1) {
        return false;
    }
    let kind = chain.item(at - 1).kind;
    if comes_behind_all(kind) {
        return true;
    }
    at = chain.next_met(new, at);
    while at > 0 {
        let old = chain.item(at - 1);
        if is_met(new, old) {
            if comes_behind(kind, old.kind) {
                break;
            }
            if !is_over(over, ends, at - 1) {
                return false;
            }
        }
        at = chain.next_met(new, at);
    }
    true
}

/// Whether the last of the first `from` items is the same as the new one, and over: what comes before
/// the new one comes before that one too. So one of a row is asked, and not all that the row waits for.
fn alike_over<T: Over>(chain: &Chain, ends: &[usize], new: Item, from: usize, over: &T) -> bool
    requires ends { AreEnds 0 ends.now (length chain.now.items) }
    requires from { from ≤ length chain.now.items }
    ensures { AreItemsClosed chain.now.items (λ k. T.over over.now (child_at ends.now k)) →
        IsTrue result → AreItemsOver chain.now.items
        (λ k. T.over over.now (child_at ends.now k)) new from }
{
    if from == 0 {
        return false;
    }
    is_same(chain.item(from - 1), new) && is_over(over, ends, from - 1)
}

fn is_same(old: Item, new: Item) -> bool
    ensures { IsTrue result → old ≡ new }
{
    old == new
}

/// Whether those of the first `from` items that come before this one are over.
fn those_over<T: Over>(chain: &Chain, ends: &[usize], new: Item, from: usize, over: &T) -> bool
    requires ends { AreEnds 0 ends.now (length chain.now.items) }
    requires from { from ≤ length chain.now.items }
    ensures { AreItemsClosed chain.now.items (λ k. T.over over.now (child_at ends.now k)) →
        IsTrue result ↔ AreItemsOver chain.now.items
        (λ k. T.over over.now (child_at ends.now k)) new from }
{
    match new.place {
        Place::Cell(_) => {
            alike_over(chain, ends, new, from, over) || cell_over(chain, ends, new, from, over)
        }
        Place::All => all_over(chain, ends, new, from, over),
    }
}

/// One above the last of the first `from` items that names the storage location of the item, which
/// is after these.
fn front(chain: &Chain, item: usize, from: usize) -> usize
    requires item { (from ≤ item) × (item < length chain.now.items) }
    ensures within { result ≤ from }
    ensures last { (new : AnItem) → slice_get chain.now.items item ≡ Some new →
        (k : ℕ) (old : AnItem) → k < from → slice_get chain.now.items k ≡ Some old
        → IsTrue (is_met new old) → k < result }
{
    let new = chain.item(item);
    let Place::Cell(_) = new.place else {
        return from;
    };
    let mut at = chain.meeting(item);
    while at > from {
        at = chain.next_met(new, at);
    }
    at
}

/// Whether those of the first `from` items that come before the item, which is after these, are
/// over.
fn item_over<T: Over>(chain: &Chain, ends: &[usize], item: usize, from: usize, over: &T) -> bool
    requires ends { AreEnds 0 ends.now (length chain.now.items) }
    requires item { (from ≤ item) × (item < length chain.now.items) }
    ensures { AreItemsClosed chain.now.items (λ k. T.over over.now (child_at ends.now k)) →
        (new : AnItem) → slice_get chain.now.items item ≡ Some new →
        IsTrue result ↔ AreItemsOver chain.now.items
        (λ k. T.over over.now (child_at ends.now k)) new from }
{
    let near = front(chain, item, from);
    those_over(chain, ends, chain.item(item), near, over)
}

/// Whether all on which the nth child depends are over.
pub(crate) fn preds_over<T: Over>(chain: &Chain, ends: &[usize], n: usize, over: &T) -> bool
    requires ends { AreEnds 0 ends.now (length chain.now.items) }
    ensures { IsClosed (rows_from 0 ends.now chain.now.items) (T.over over.now) →
        IsTrue result ↔ AreOver (rows_from 0 ends.now chain.now.items) (T.over over.now) n }
{
    let (from, to) = bounds(chain.items(), ends, n);
    for item in from..to {
        if !item_over(chain, ends, item, from, over) {
            return false;
        }
    }
    true
}

/// Whether all are over on which a further child with this item would depend.
fn new_over<T: Over>(chain: &Chain, ends: &[usize], new: Item, over: &T) -> bool
    requires ends { AreEnds 0 ends.now (length chain.now.items) }
    ensures { AreItemsClosed chain.now.items (λ k. T.over over.now (child_at ends.now k)) →
        IsTrue result ↔ AreItemsOver chain.now.items
        (λ k. T.over over.now (child_at ends.now k)) new (length chain.now.items) }
{
    those_over(chain, ends, new, chain.last_met(new), over)
}

/// Whether all are over on which a further child with these items would depend.
pub(crate) fn further_over<T: Over>(chain: &Chain, ends: &[usize], items: &[Item], over: &T) -> bool
    requires ends { AreEnds 0 ends.now (length chain.now.items) }
    ensures { IsClosed (rows_from 0 ends.now chain.now.items) (T.over over.now) →
        IsTrue result ↔ AreOverFor (rows_from 0 ends.now chain.now.items) (T.over over.now) items.now }
{
    for item in items {
        if !new_over(chain, ends, *item, over) {
            return false;
        }
    }
    true
}
