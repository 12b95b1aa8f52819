//! How the items of all children lie in one list.

ghost use Rattle.std.specs.Prelude.{◌≡◌, ◌<◌, ◌≤◌, ◌+◌, ◌-◌, [], ◌∷◌, ◌++◌, length, take, slice_index, vec_len, vec_capacity};
ghost use Rattle.tb_depend.specs.Relations.{items_at};
ghost use Rattle.tb_depend.specs.Layout.{AreEnds, rows_from, start_at, end_of, IsRow};
ghost use Rattle.tb_depend.specs.Chains.{HasItemRoom, KeepsNames};

use crate::chain::Chain;
use tb_model::Item;

/// Where the items of the nth child begin and end; both are 0 where there is no such child.
pub(crate) fn bounds(items: &[Item], ends: &[usize], n: usize) -> (usize, usize)
    requires { AreEnds 0 ends.now (length items.now) }
    ensures { IsRow ends.now (length items.now) n result.0 result.1 }
{
    if n == 0 || n > ends.len() {
        return (0, 0);
    }
    (start(items, ends, n - 1), ends[n - 1])
}

/// The items of the nth child, where the items of each end at its index. There are none where there
/// is no such child.
pub(crate) fn row<'a>(items: &'a [Item], ends: &[usize], n: usize) -> &'a [Item]
    requires { AreEnds 0 ends.now (length items.now) }
    ensures { result.now ≡ items_at (rows_from 0 ends.now items.now) n }
{
    let (from, to) = bounds(items, ends, n);
    &items[from..to]
}

/// Where the items of the child after the first k begin.
fn start(items: &[Item], ends: &[usize], k: usize) -> usize
    requires ends { AreEnds 0 ends.now (length items.now) }
    requires there { k < length ends.now }
    ensures start { result ≡ start_at 0 ends.now k }
    ensures from { result ≤ slice_index ends.now k }
    ensures to { slice_index ends.now k ≤ length items.now }
{
    if k == 0 {
        return 0;
    }
    ends[k - 1]
}

/// Where the last child's items end.
fn end_of(ends: &[usize]) -> usize
    ensures { result ≡ end_of 0 ends.now }
{
    match ends.last() {
        Some(end) => *end,
        None => 0,
    }
}

/// Adds a child with these items after the others, in the capacity that is there.
pub(crate) fn push_row(chain: &mut Chain, ends: &mut Vec<usize>, new: &[Item])
    requires ends { AreEnds 0 ends.old.items (length chain.old.items) }
    requires a_place { vec_len ends.old < vec_capacity ends.old }
    requires its_items { HasItemRoom chain.old new.now }
    ensures rows { rows_from 0 ends.new.items chain.new.items
        ≡ rows_from 0 ends.old.items chain.old.items ++ new.now ∷ [] }
    ensures ends { AreEnds 0 ends.new.items (length chain.new.items) }
    ensures places { vec_capacity ends.old - vec_len ends.old
        ≤ vec_capacity ends.new - vec_len ends.new + 1 }
    ensures item_places { chain.new.item_places + length new.now ≡ chain.old.item_places }
    ensures link_places { chain.new.link_places + length new.now ≡ chain.old.link_places }
    ensures cells { KeepsNames chain.old.cells chain.new.cells }
{
    chain.extend(new);
    ends.push_reserved(chain.len());
}

/// Takes the last child off, and retains its capacity.
pub(crate) fn pop_row(chain: &mut Chain, ends: &mut Vec<usize>)
    requires ends { AreEnds 0 ends.old.items (length chain.old.items) }
    ensures rows { rows_from 0 ends.new.items chain.new.items
        ≡ take (length ends.old.items - 1) (rows_from 0 ends.old.items chain.old.items) }
    ensures ends { AreEnds 0 ends.new.items (length chain.new.items) }
    ensures places { 0 < vec_len ends.old →
        vec_capacity ends.new - vec_len ends.new ≡ vec_capacity ends.old - vec_len ends.old + 1 }
    ensures item_places { chain.new.item_places ≡ chain.old.item_places
        + length (items_at (rows_from 0 ends.old.items chain.old.items) (length ends.old.items)) }
    ensures link_places { chain.new.link_places ≡ chain.old.link_places
        + length (items_at (rows_from 0 ends.old.items chain.old.items) (length ends.old.items)) }
    ensures cells { KeepsNames chain.old.cells chain.new.cells }
    ensures keeps { vec_capacity ends.old - vec_len ends.old
        ≤ vec_capacity ends.new - vec_len ends.new }
{
    if let Some(_end) = ends.pop() {
        chain.truncate(end_of(ends));
    }
}
