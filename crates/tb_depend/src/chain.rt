//! The items of all children in one list, each with what it knows of those in front of it.

ghost use Rattle.std.specs.Prelude.{◌≡◌, ◌<◌, ◌≤◌, ◌+◌, ◌-◌, [], ◌∷◌, ◌++◌, true, OnOk, IsOk, Some, length, take, slice_get};
ghost use Rattle.tb_model.specs.declared.item.Item.{Item as AnItem};
ghost use Rattle.tb_model.specs.Items.{is_before, meets};
ghost use Rattle.tb_depend.specs.Table.{is_named};
ghost use Rattle.tb_depend.specs.Chains.{is_met, IsLast, IsLink, HasItemRoom, KeepsNames, KeepsItemRoom};

use crate::heads::Heads;
use crate::link::Link;
use std::alloc::{AllocError, Global};
use std::marker::Model;
use tb_model::{Item, Place};

/// The items of all children, one child's after another's, with the links of each, and the last
/// item of each location.
#[derive(Drop)]
pub(crate) struct Chain {
    pub items: Vec<Item>,
    pub links: Vec<Link>,
    pub heads: Heads,
}

impl Model for Chain {
    ghost use Rattle.std.specs.Prelude.{◌-◌, vec_len, vec_capacity};
    ghost use Rattle.tb_model.specs.Items.{is_before, meets};
    ghost use Rattle.tb_depend.specs.Chains.{ItemList, AreChained};

    ghost Value = { ItemList };

    ghost view = { λ c. record { items = c.items.items; item_places = vec_capacity c.items - vec_len c.items; link_places = vec_capacity c.links - vec_len c.links; cells = c.heads.cells.entries } };

    ghost invariant = { λ c. AreChained c.items.items c.links.items c.heads };
}

impl Chain {
    pub fn new(alloc: Global) -> Chain
        ensures { result.items ≡ [] }
    {
        Chain {
            items: Vec::new(alloc),
            links: Vec::new(alloc),
            heads: Heads::new(alloc),
        }
    }

    /// How many items there are.
    pub fn len(&self) -> usize
        ensures { result ≡ length self.now.items }
    {
        self.items.len()
    }

    pub fn items(&self) -> &[Item]
        ensures { result.now ≡ self.now.items }
    {
        self.items.as_slice()
    }

    /// The item at this index.
    pub fn item(&self, at: usize) -> Item
        requires { at < length self.now.items }
        ensures { slice_get self.now.items at ≡ Some result }
    {
        self.items[at]
    }

    /// One above the last item in front of this one that names its storage location.
    pub fn meeting(&self, at: usize) -> usize
        requires { at < length self.now.items }
        ensures { (i : AnItem) → slice_get self.now.items at ≡ Some i
            → IsLast (is_met i) self.now.items at result }
    {
        self.links[at].meeting
    }

    /// One above the last item in front of this one that comes before it.
    pub fn before(&self, at: usize) -> usize
        requires { at < length self.now.items }
        ensures { (i : AnItem) → slice_get self.now.items at ≡ Some i
            → IsLast (meets is_before i) self.now.items at result }
    {
        self.links[at].before
    }

    /// Reserves the capacity that `extend` needs for these items, and changes nothing else.
    pub fn reserve(&mut self, new: &[Item]) -> Result<(), AllocError>
        ensures items { self.new.items ≡ self.old.items }
        ensures ok { OnOk result (HasItemRoom self.new new.now) }
        ensures succeeds { HasItemRoom self.old new.now → IsOk result }
        ensures keeps { KeepsItemRoom self.old self.new }
    {
        self.items.reserve(new.len())?;
        self.links.reserve(new.len())?;
        self.heads.reserve(new)
    }

    /// One above the last item that names the storage location of the new one.
    pub fn last_met(&self, new: Item) -> usize
        ensures { IsLast (is_met new) self.now.items (length self.now.items) result }
    {
        match new.place {
            Place::Cell(_) => self.heads.head(new.place).max(self.heads.all),
            Place::All => self.items.as_slice().len(),
        }
    }

    /// What an item knows of those in the list.
    fn link(&self, item: Item) -> Link
        ensures { IsLink self.now.items (length self.now.items) item result }
    {
        let meeting = self.last_met(item);
        Link {
            same: self.heads.head(item.place),
            meeting,
            before: self.last_before(item, meeting),
        }
    }

    /// Adds an item after the others, in the capacity that is there.
    fn push(&mut self, item: Item)
        requires a_place { 0 < self.old.item_places }
        requires a_link { 0 < self.old.link_places }
        requires a_head { is_named self.old.cells item.place ≡ true }
        ensures items { self.new.items ≡ self.old.items ++ item ∷ [] }
        ensures item_places { self.new.item_places + 1 ≡ self.old.item_places }
        ensures link_places { self.new.link_places + 1 ≡ self.old.link_places }
        ensures cells { KeepsNames self.old.cells self.new.cells }
    {
        let link = self.link(item);
        self.items.push_reserved(item);
        self.links.push_reserved(link);
        self.heads.set(item.place, self.items.as_slice().len());
    }

    /// Adds these items after the others, in the capacity that is there.
    pub fn extend(&mut self, new: &[Item])
        requires { HasItemRoom self.old new.now }
        ensures items { self.new.items ≡ self.old.items ++ new.now }
        ensures item_places { self.new.item_places + length new.now ≡ self.old.item_places }
        ensures link_places { self.new.link_places + length new.now ≡ self.old.link_places }
        ensures cells { KeepsNames self.old.cells self.new.cells }
    {
        for item in new {
            self.push(*item);
        }
    }

    /// Takes the last item off, and retains its capacity.
    fn pop(&mut self)
        ensures items { self.new.items ≡ take (length self.old.items - 1) self.old.items }
        ensures item_places { self.new.item_places + length self.new.items
            ≡ self.old.item_places + length self.old.items }
        ensures link_places { self.new.link_places + length self.new.items
            ≡ self.old.link_places + length self.old.items }
        ensures cells { KeepsNames self.old.cells self.new.cells }
    {
        if let (Some(item), Some(link)) = (self.items.pop(), self.links.pop()) {
            self.heads.set(item.place, link.same);
        }
    }

    /// Takes off all items after the first so many, and retains their capacity.
    pub fn truncate(&mut self, len: usize)
        ensures items { self.new.items ≡ take len self.old.items }
        ensures item_places { self.new.item_places + length self.new.items
            ≡ self.old.item_places + length self.old.items }
        ensures link_places { self.new.link_places + length self.new.items
            ≡ self.old.link_places + length self.old.items }
        ensures cells { KeepsNames self.old.cells self.new.cells }
    {
        while self.len() > len {
            self.pop();
        }
    }
}
