//! The holders.

ghost use Rattle.std.specs.Prelude.{◌≡◌, ◌<◌, ◌≤◌, ℕ, [], ◌∷◌, OnOk, OnErr, IsOk, IfOk, Some, None, true, false, nat_eq, length, is_some, option_map, if◌then◌else◌};
ghost use Rattle.std.specs.Map.{lookup, keys_of};
ghost use Rattle.tb_model.specs.declared.place.Place.{Place as APlace};
ghost use Rattle.tb_model.specs.LeastNames.{IsLeastName};
ghost use Rattle.tb_excl.specs.Holders.{holder, has_room, is_exclusive, is_place, HasRoomFor, KeepsRoom, IsSet, IsSame, Excludes, ExcludesTask, IsLeastNumber};
ghost use Rattle.tb_excl.specs.Search.{lesser, holder_at, least_held, least_holder, AreFromOne};

use crate::cells::Cells;
use std::alloc::{AllocError, Global};
use std::marker::Model;
use tb_model::{Item, Kind, Place, TaskName};

/// The exclusive sets of one task's children: each cell that was ever taken, with the child that
/// holds it. A child holds what it takes from its start to its end, also while it waits.
#[derive(Drop)]
pub struct Holders {
    parent: TaskName,
    cells: Cells,
    all: Option<u32>,
}

impl Model for Holders {
    ghost use Rattle.tb_excl.specs.Holders.{Holders};
    ghost use Rattle.tb_excl.specs.Search.{AreFromOne, seen};

    ghost Value = { Holders };

    ghost view = { λ h. seen h.parent h.cells h.all };

    ghost invariant = { λ h. AreFromOne (seen h.parent h.cells h.all) };
}

impl Holders {
    /// The children of this task. No location is held.
    pub fn new(alloc: Global, parent: TaskName) -> Holders
        ensures parent { result.parent ≡ parent }
        ensures free { (p : APlace) → holder result p ≡ None }
    {
        Holders {
            parent,
            cells: Cells::new(alloc),
            all: None,
        }
    }

    /// The task whose children these are.
    pub fn parent(&self) -> &TaskName
        ensures { result.now ≡ self.now.parent }
    {
        &self.parent
    }

    /// Reserves the capacity that `take` needs, and changes nothing else.
    pub fn reserve_take(&mut self, _child: u32, items: &[Item]) -> Result<(), AllocError>
        ensures ok { OnOk result (HasRoomFor self.new items.now) }
        ensures holders { IsSame self.old self.new }
        ensures keeps { KeepsRoom self.old self.new }
        ensures succeeds { HasRoomFor self.old items.now → IsOk result }
    {
        for item in items {
            self.reserve_item(*item)?;
        }
        Ok(())
    }

    /// The child starts, and holds what its items take. With capacity it takes no memory.
    pub fn take(&mut self, child: u32, items: &[Item]) -> Result<(), AllocError>
        requires { 0 < child }
        ensures ok { OnOk result (IsSet self.old items.now (Some child) self.new) }
        ensures err { OnErr result (IsSame self.old self.new) }
        ensures has_room { OnOk result (HasRoomFor self.new items.now) }
        ensures keeps { KeepsRoom self.old self.new }
        ensures succeeds { HasRoomFor self.old items.now → IsOk result }
    {
        self.reserve_take(child, items)?;
        self.unrelease(child, items);
        Ok(())
    }

    /// The child ends, and what its items take is free.
    pub fn release(&mut self, items: &[Item])
        ensures free { IsSet self.old items.now None self.new }
        ensures keeps { KeepsRoom self.old self.new }
    {
        self.set(items, None)
    }

    /// Undoes a start. The capacity stays.
    pub fn untake(&mut self, items: &[Item])
        ensures free { IsSet self.old items.now None self.new }
        ensures keeps { KeepsRoom self.old self.new }
    {
        self.release(items)
    }

    /// Undoes an end. The capacity is that which the start made.
    pub fn unrelease(&mut self, child: u32, items: &[Item])
        requires from_one { 0 < child }
        requires room { HasRoomFor self.old items.now }
        ensures held { IsSet self.old items.now (Some child) self.new }
        ensures keeps { KeepsRoom self.old self.new }
    {
        self.set(items, Some(child))
    }

    /// The least ordinal of a child that holds what excludes a task with these items.
    #[tactic(auto, using(crate::proofs::SearchLemmas::least_holder_is_least))]
    pub fn busy_number(&self, items: &[Item]) -> Option<u32>
        ensures { IsLeastNumber (Excludes self.now items.now) result }
    {
        self.least_holder(items)
    }

    /// The name of that child. Takes memory only where the parent's name has three ordinals or
    /// more.
    pub fn busy(&self, items: &[Item]) -> Result<Option<TaskName>, AllocError>
        ensures busy { IfOk result (IsLeastName (ExcludesTask self.now items.now)) }
        ensures short { length self.now.parent < 3 → IsOk result }
    {
        match self.busy_number(items) {
            None => Ok(None),
            Some(number) => Ok(Some(self.parent.child(number)?)),
        }
    }

    /// The ordinal of the child that holds the location.
    pub fn holder(&self, place: Place) -> Option<u32>
        ensures { result ≡ holder self.now place }
    {
        match place {
            Place::Cell(cell) => self.held_by(cell),
            Place::All => self.all,
        }
    }

    fn held_by(&self, cell: u32) -> Option<u32>
        ensures { result ≡ holder self.now (Place.Cell cell) }
    {
        self.cells.holder(cell)
    }

    fn reserve_item(&mut self, item: Item) -> Result<(), AllocError>
        ensures ok { OnOk result (HasRoomFor self.new (item ∷ [])) }
        ensures holders { IsSame self.old self.new }
        ensures keeps { KeepsRoom self.old self.new }
        ensures succeeds { HasRoomFor self.old (item ∷ []) → IsOk result }
    {
        if is_exclusive(item.kind) {
            self.reserve_place(item.place)?;
        }
        Ok(())
    }

    fn reserve_place(&mut self, place: Place) -> Result<(), AllocError>
        ensures ok { OnOk result (has_room self.new place ≡ true) }
        ensures holders { IsSame self.old self.new }
        ensures keeps { KeepsRoom self.old self.new }
        ensures succeeds { has_room self.old place ≡ true → IsOk result }
    {
        match place {
            Place::Cell(cell) => self.cells.reserve(cell),
            Place::All => Ok(()),
        }
    }

    fn set(&mut self, items: &[Item], to: Option<u32>)
        requires from_one { (n : ℕ) → to ≡ Some n → 0 < n }
        requires room { (n : ℕ) → to ≡ Some n → HasRoomFor self.old items.now }
        ensures set { IsSet self.old items.now to self.new }
        ensures keeps { KeepsRoom self.old self.new }
    {
        for item in items {
            self.set_item(*item, to);
        }
    }

    fn set_item(&mut self, item: Item, to: Option<u32>)
        requires from_one { (n : ℕ) → to ≡ Some n → 0 < n }
        requires room { (n : ℕ) → to ≡ Some n → HasRoomFor self.old (item ∷ []) }
        ensures set { IsSet self.old (item ∷ []) to self.new }
        ensures keeps { KeepsRoom self.old self.new }
    {
        if is_exclusive(item.kind) {
            self.set_place(item.place, to);
        }
    }

    fn set_place(&mut self, place: Place, to: Option<u32>)
        requires from_one { (n : ℕ) → to ≡ Some n → 0 < n }
        requires room { (n : ℕ) → to ≡ Some n → has_room self.old place ≡ true }
        ensures set { (p : APlace) → holder self.new p ≡ (if is_place place p then to else holder self.old p) }
        ensures keeps { KeepsRoom self.old self.new }
    {
        match place {
            Place::Cell(cell) => self.cells.set(cell, to),
            Place::All => self.all = to,
        }
    }

    fn least_holder(&self, items: &[Item]) -> Option<u32>
        ensures { result ≡ least_holder self.now (keys_of self.now.cells) items.now }
    {
        let mut least = None;
        let mut i = items.len();
        while i > 0 {
            i -= 1;
            let item = items[i];
            if is_exclusive(item.kind) {
                least = lesser(self.holder_at(item.place), least);
            }
        }
        least
    }

    // An item of a cell meets the cell and all memory, and one of all memory meets every location.
    fn holder_at(&self, place: Place) -> Option<u32>
        ensures { result ≡ holder_at self.now (keys_of self.now.cells) place }
    {
        match place {
            Place::Cell(cell) => lesser(self.held_by(cell), self.all),
            Place::All => lesser(self.least_held(), self.all),
        }
    }

    fn least_held(&self) -> Option<u32>
        ensures { result ≡ least_held self.now (keys_of self.now.cells) }
    {
        let mut least = None;
        let mut i = self.cells.len();
        'cells: while i > 0 {
            i -= 1;
            if let Some((cell, _holder)) = self.cells.at(i) {
                least = lesser(self.held_by(cell), least);
            }
        }
        least
    }
}

fn is_exclusive(kind: Kind) -> bool
    ensures { result ≡ is_exclusive kind }
{
    matches!(kind, Kind::Mutexinoutset)
}

fn lesser(a: Option<u32>, b: Option<u32>) -> Option<u32>
    ensures { result ≡ lesser a b }
{
    match (a, b) {
        (None, b) => b,
        (a, None) => a,
        (Some(m), Some(n)) => Some(if n < m { n } else { m }),
    }
}
