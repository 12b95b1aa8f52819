//! The order of the marked names, as a list of their indexes.

ghost use Rattle.std.specs.Prelude.{◌≡◌, ◌≢◌, ◌<◌, ◌≤◌, ◌+◌, ◌^◌, IfSome, IsTrue, false, true, length, remove, slice_index};
ghost use Rattle.std.specs.Option.{option_copied};
ghost use Rattle.tb_model.specs.LeastNames.{IsLeastName};
ghost use Rattle.tb_ready.specs.Tasks.{IsLeast, IsMarkedBehind};
ghost use Rattle.tb_ready.specs.Layout.{name_at, mark_at, set_at, AreUnique};
ghost use Rattle.tb_ready.specs.Order.{IsOrder, IsPlace, IsFirstBehind};

use crate::gapped::Gapped;
use crate::names::Names;
use tb_model::TaskName;

/// The kth of the marked names, from 0.
fn marked<'a>(names: &'a Names, order: &Gapped, k: usize) -> &'a TaskName
    requires order { IsOrder names.now.tasks order.now.items }
    requires there { k < length order.now.items }
    ensures name { result.now ≡ name_at names.now.tasks (slice_index order.now.items k) }
    ensures unique { AreUnique names.now.tasks }
{
    names.name(order.at(k))
}

/// Where a name goes among the marked ones, by a binary search that begins at an index close by.
fn place_of(names: &Names, order: &Gapped, near: usize, name: &TaskName) -> usize
    requires { IsOrder names.now.tasks order.now.items }
    ensures { IsPlace names.now.tasks order.now.items name.now result }
{
    let mut low = 0;
    let mut high = order.len();
    let mut round: u8 = 0;
    'halves: while low < high {
        let middle = probe(low, high, order.len(), near, round);
        round = round.saturating_add(1);
        if marked(names, order, middle).cmp(name).is_lt() {
            low = middle + 1;
        } else {
            high = middle;
        }
    }
    low
}

/// Which index between these is looked at in this round of a search: the one close by, and then
/// some on the side of it to which the search turns, each farther from the last one, come before
/// the halves.
fn probe(low: usize, high: usize, len: usize, near: usize, round: u8) -> usize
    requires { low < high }
    ensures from { low ≤ result }
    ensures below { result < high }
{
    match round {
        0 if low <= near && near < high => near,
        0 => high - 1,
        1..4 if low == 0 => high - usize::from(round).min(high),
        1..4 if high == len => low.saturating_add(usize::from(round) - 1).min(high - 1),
        _ => low + (high - low) / 2,
    }
}

/// Marks the name at an index, which isn't, and returns where it goes among the marked ones. The
/// list has capacity.
fn put_in(names: &mut Names, order: &mut Gapped, near: usize, at: usize) -> usize
    requires order { IsOrder names.old.tasks order.old.items }
    requires there { at < length names.old.tasks }
    requires unmarked { mark_at names.old.tasks at ≡ false }
    requires room { length names.old.tasks ≤ order.old.capacity }
    ensures order { IsOrder names.new.tasks order.new.items }
    ensures tasks { names.new.tasks ≡ set_at names.old.tasks at true }
    ensures room { names.new.room ≡ names.old.room }
    ensures capacity { order.old.capacity ≤ order.new.capacity }
{
    let place = place_of(names, order, near, names.name(at));
    order.insert(place, at);
    names.set(at, true);
    place
}

/// Where the name at an index, which is marked, is among the marked ones: mostly close by.
#[inline(always)]
fn place_among(names: &Names, order: &Gapped, near: usize, at: usize) -> usize
    requires order { IsOrder names.now.tasks order.now.items }
    requires there { at < length names.now.tasks }
    requires marked { mark_at names.now.tasks at ≡ true }
    ensures within { result < length order.now.items }
    ensures is { slice_index order.now.items result ≡ at }
{
    let before = near.saturating_sub(1);
    if is_at(order, near, at) {
        near
    } else if is_at(order, before, at) {
        before
    } else {
        place_of(names, order, near, names.name(at))
    }
}

/// Whether the name at an index is the kth of the marked ones.
#[inline(always)]
fn is_at(order: &Gapped, k: usize, at: usize) -> bool
    ensures { IsTrue result → (k < length order.now.items) × (slice_index order.now.items k ≡ at) }
{
    k < order.len() && order.at(k) == at
}

/// Unmarks the name at an index, which is marked, and returns where it was among the marked ones.
/// The list retains its capacity.
fn take_out(names: &mut Names, order: &mut Gapped, near: usize, at: usize) -> usize
    requires order { IsOrder names.old.tasks order.old.items }
    requires there { at < length names.old.tasks }
    requires marked { mark_at names.old.tasks at ≡ true }
    ensures order { IsOrder names.new.tasks order.new.items }
    ensures tasks { names.new.tasks ≡ set_at names.old.tasks at false }
    ensures room { names.new.room ≡ names.old.room }
    ensures capacity { order.old.capacity ≤ order.new.capacity }
{
    let place = place_among(names, order, near, at);
    order.remove(place);
    names.set(at, false);
    place
}

/// Sets the mark of the name at an index. Returns an index among the marked names that is close by.
pub(crate) fn set_mark(
    names: &mut Names,
    order: &mut Gapped,
    near: usize,
    at: usize,
    mark: bool,
) -> usize
    requires order { IsOrder names.old.tasks order.old.items }
    requires there { at < length names.old.tasks }
    requires room { length names.old.tasks ≤ order.old.capacity }
    ensures order { IsOrder names.new.tasks order.new.items }
    ensures tasks { names.new.tasks ≡ set_at names.old.tasks at mark }
    ensures room { names.new.room ≡ names.old.room }
    ensures capacity { order.old.capacity ≤ order.new.capacity }
{
    if names.is_marked(at) == mark {
        return near;
    }
    if mark {
        put_in(names, order, near, at)
    } else {
        take_out(names, order, near, at)
    }
}

/// Removes the name at an index, marked or not. Returns an index among the marked names that is
/// close by.
#[tactic(auto, using(crate::proofs::TasksLemmas::length_set, crate::proofs::TasksLemmas::mark_set_here, crate::proofs::TasksLemmas::remove_set))]
pub(crate) fn forget(names: &mut Names, order: &mut Gapped, near: usize, at: usize) -> usize
    requires order { IsOrder names.old.tasks order.old.items }
    requires there { at < length names.old.tasks }
    requires room { length names.old.tasks ≤ order.old.capacity }
    ensures order { IsOrder names.new.tasks order.new.items }
    ensures tasks { names.new.tasks ≡ remove names.old.tasks at }
    ensures room { names.old.room ≤ names.new.room }
    ensures capacity { order.old.capacity ≤ order.new.capacity }
{
    let place = set_mark(names, order, near, at, false);
    close_gap(names, order, at);
    names.remove(at);
    place
}

/// Moves the indexes after one that goes, whose name is unmarked.
fn close_gap(names: &Names, order: &mut Gapped, gone: usize)
    requires order { IsOrder names.now.tasks order.old.items }
    requires there { gone < length names.now.tasks }
    requires unmarked { mark_at names.now.tasks gone ≡ false }
    ensures order { IsOrder (remove names.now.tasks gone) order.new.items }
    ensures capacity { order.old.capacity ≤ order.new.capacity }
{
    // after the last name no index moves
    if gone == names.len() - 1 {
        return;
    }
    order.move_up(gone);
}

/// The least marked name that is none of those to skip.
pub(crate) fn least<'a>(names: &'a Names, order: &Gapped, skip: &[TaskName]) -> Option<&'a TaskName>
    requires { IsOrder names.now.tasks order.now.items }
    ensures { IsLeast names.now.tasks skip.now (option_copied result) }
{
    for k in 0..order.len() {
        let name = marked(names, order, k);
        if !skip.contains(name) {
            return Some(name);
        }
    }
    None
}

/// The index of the first marked name after this one, or of the first of all: mostly right after
/// the index at which a walk is, or close by, since a task of which it is asked has mostly just
/// generated its last children.
fn place_behind(
    names: &Names,
    order: &Gapped,
    walk: usize,
    near: usize,
    after: Option<&TaskName>,
) -> usize
    requires { IsOrder names.now.tasks order.now.items }
    ensures { IsFirstBehind names.now.tasks order.now.items (option_copied after.entry) result }
{
    let Some(name) = after else {
        return 0;
    };
    if is_named(names, order, walk, name) {
        return walk + 1;
    }
    let before = near.saturating_sub(1);
    if is_named(names, order, before, name) {
        return before + 1;
    }
    let farther = near.saturating_sub(2);
    if is_named(names, order, farther, name) {
        return farther + 1;
    }
    let place = place_of(names, order, near, name);
    if is_named(names, order, place, name) {
        place + 1
    } else {
        place
    }
}

/// Whether this is the kth of the marked names.
#[inline(always)]
fn is_named(names: &Names, order: &Gapped, k: usize, name: &TaskName) -> bool
    requires { IsOrder names.now.tasks order.now.items }
    ensures named { IsTrue result → (k < length order.now.items) × (name_at names.now.tasks (slice_index order.now.items k) ≡ name.now) }
    ensures fits { IsTrue result → k + 1 < 2 ^ 64 }
    ensures other { result ≡ false → k < length order.now.items → name_at names.now.tasks (slice_index order.now.items k) ≢ name.now }
{
    k < order.len() && *marked(names, order, k) == *name
}

/// The least marked name after this one, or the least of all. A walk hands on the index where it
/// is.
pub(crate) fn next_marked<'a>(
    names: &'a Names,
    order: &Gapped,
    walk: &mut usize,
    near: usize,
    after: Option<&TaskName>,
) -> Option<&'a TaskName>
    requires { IsOrder names.now.tasks order.now.items }
    ensures { IsLeastName (IsMarkedBehind names.now.tasks (option_copied after.entry)) (option_copied result) }
{
    let place = place_behind(names, order, *walk, near, after);
    *walk = place;
    if place < order.len() {
        Some(marked(names, order, place))
    } else {
        None
    }
}

/// The index of the kth of the marked names, if there are as many.
pub(crate) fn index_of(names: &Names, order: &Gapped, k: usize) -> Option<usize>
    requires { IsOrder names.now.tasks order.now.items }
    ensures { IfSome result (λ i. i < length names.now.tasks) }
{
    if k < order.len() {
        Some(order.at(k))
    } else {
        None
    }
}
