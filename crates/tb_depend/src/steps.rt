//! Steps from item to item, towards the front of the list.

ghost use Rattle.std.specs.Prelude.{◌≡◌, ◌<◌, ◌≤◌, ◌-◌, ℕ, suc, IsTrue, Some, slice_get, length};
ghost use Rattle.tb_model.specs.declared.item.Item.{Item as AnItem};
ghost use Rattle.tb_model.specs.declared.place.Place.TheVariants.{Cell};
ghost use Rattle.tb_model.specs.Items.{is_before, relation, same_place, meets};
ghost use Rattle.tb_depend.specs.Chains.{is_place, is_met, IsLast};

use crate::chain::Chain;
use tb_model::{Item, Kind, Place};

/// Whether a new item of this kind comes after an earlier one of that kind: always, but for two of
/// one kind that may run in any order.
pub(crate) fn comes_behind(new: Kind, old: Kind) -> bool
    ensures { result ≡ is_before (relation new old) }
{
    new != old || matches!(new, Kind::Out | Kind::Inout)
}

/// Whether an item of this kind comes after every earlier one of its storage location.
pub(crate) fn comes_behind_all(kind: Kind) -> bool
    ensures { result ≡ is_before (relation kind kind) }
{
    comes_behind(kind, kind)
}

/// Whether the two are the very same location.
fn is_place(p: Place, q: Place) -> bool
    ensures { result ≡ is_place p q }
{
    match (p, q) {
        (Place::Cell(c), Place::Cell(d)) => c == d,
        (Place::All, Place::All) => true,
        _ => false,
    }
}

/// Whether the two name one storage location.
pub(crate) fn is_met(new: Item, old: Item) -> bool
    ensures { result ≡ is_met new old }
{
    new.place == Place::All || old.place == Place::All || new.place == old.place
}

/// Whether the earlier one comes before the new one.
pub(crate) fn is_before(new: Item, old: Item) -> bool
    ensures { result ≡ meets is_before new old }
{
    is_met(new, old) && comes_behind(new.kind, old.kind)
}

impl Chain {
    /// One above the last of the first `from` items that comes before a new one. Takes two turns,
    /// but where an item of all memory is of a kind that may run in any order.
    pub fn last_before(&self, new: Item, from: usize) -> usize
        requires from { from ≤ length self.now.items }
        ensures { IsLast (meets is_before new) self.now.items from result }
    {
        let mut at = from;
        while at > 0 {
            let old = self.item(at - 1);
            if is_before(new, old) {
                break;
            }
            at = if is_place(new.place, old.place) {
                self.before(at - 1)
            } else {
                at - 1
            };
        }
        at
    }

    /// One above an item in front of that below `at`, such that none between them is of the new
    /// one's storage location, which is a cell.
    pub fn next_met(&self, new: Item, at: usize) -> usize
        requires a_cell { (c : ℕ) × (new.place ≡ Cell c) }
        requires at { (0 < at) × (at ≤ length self.now.items) }
        ensures within { result < at }
        ensures none { (k : ℕ) (old : AnItem) → suc k < at → slice_get self.now.items k ≡ Some old
            → IsTrue (is_met new old) → k < result }
    {
        if is_met(new, self.item(at - 1)) {
            self.meeting(at - 1)
        } else {
            at - 1
        }
    }
}
