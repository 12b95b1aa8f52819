//! The items of a depend clause.

ghost use Rattle.std.specs.Prelude.{◌≡◌, ◌↔◌, [], OnOk, OnErr, IsTrue, ◌++◌, ◌∷◌};

use crate::boxed_list::BoxedList;
use crate::item::Item;
use crate::place::Place;
use std::alloc::{AllocError, Global};
use std::fmt;
use std::marker::Model;

/// The items of a depend clause, in the order in which they were written.
#[derive(Drop)]
pub struct Items {
    list: BoxedList<Item>,
}

impl Model for Items {
    ghost use Rattle.std.specs.Prelude.{List};
    ghost use Rattle.tb_model.specs.declared.item.Item.{Item};

    ghost Value = { List Item };

    ghost view = { λ a. a.list };
}

impl Items {
    /// No items. Takes no memory.
    pub fn new(alloc: Global) -> Items
        ensures { result ≡ [] }
    {
        Items {
            list: BoxedList::new(alloc),
        }
    }

    /// Adds an item after the others.
    pub fn push(&mut self, item: Item) -> Result<(), AllocError>
        ensures ok { OnOk result (self.new ≡ self.old ++ item ∷ []) }
        ensures err { OnErr result (self.new ≡ self.old) }
    {
        self.list.push(item)
    }

    /// The items, in order.
    pub fn as_slice(&self) -> &[Item]
        ensures { result.now ≡ self.now }
    {
        self.list.as_slice()
    }

    /// Whether both have the same items.
    pub fn is_same(&self, other: &Items) -> bool
        ensures { IsTrue result ↔ (self.now ≡ other.now) }
    {
        are_same_lists(self.as_slice(), other.as_slice())
    }
}

fn are_same_lists(a: &[Item], b: &[Item]) -> bool
    ensures { IsTrue result ↔ (a.now ≡ b.now) }
{
    if a.len() != b.len() {
        return false;
    }
    for at in 0..a.len() {
        if !is_same_item(&a[at], &b[at]) {
            return false;
        }
    }
    true
}

fn is_same_item(a: &Item, b: &Item) -> bool
    ensures { IsTrue result ↔ (a.now ≡ b.now) }
{
    a.kind == b.kind && is_same_place(&a.place, &b.place)
}

fn is_same_place(a: &Place, b: &Place) -> bool
    ensures { IsTrue result ↔ (a.now ≡ b.now) }
{
    match (a, b) {
        (Place::Cell(c), Place::Cell(d)) => c == d,
        (Place::All, Place::All) => true,
        _ => false,
    }
}

impl Clone for Items {
    ghost is_clone = { λ a b. b ≡ a };

    fn clone(&self) -> Result<Items, AllocError> {
        Ok(Items {
            list: self.list.copy()?,
        })
    }
}

impl fmt::Debug for Items {
    fn fmt<W: fmt::Write>(&self, f: &mut fmt::Formatter<W>) -> fmt::Result {
        f.debug_list().entries(self.as_slice()).finish()
    }
}
