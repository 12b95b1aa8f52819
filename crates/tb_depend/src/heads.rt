//! The last item of each location.

ghost use Rattle.std.specs.Prelude.{◌≡◌, true, OnOk, IsOk, if◌then◌else◌};
ghost use Rattle.tb_model.specs.declared.place.Place.{Place as APlace};
ghost use Rattle.tb_model.specs.declared.item.Item.{Item as AnItem};
ghost use Rattle.tb_depend.specs.Chains.{head, has_head, is_place, AreSameHeads, KeepsHeads, HasHeadsFor};

use indexmap::IndexMap;
use std::alloc::{AllocError, Global};
use tb_cells::{reserve_cell, set_cell};
use tb_model::{Item, Place};

/// For each location that an item ever named, one above the index of its last item in the list of
/// all items, and 0 where there is none.
#[derive(Drop)]
pub(crate) struct Heads {
    pub cells: IndexMap<u32, usize>,
    pub all: usize,
}

impl Heads {
    pub fn new(alloc: Global) -> Heads
        ensures { (p : APlace) → head result p ≡ 0 }
    {
        Heads {
            cells: IndexMap::new(alloc),
            all: 0,
        }
    }

    pub fn head(&self, place: Place) -> usize
        ensures { result ≡ head self.now place }
    {
        match place {
            Place::Cell(cell) => self.cells.get(&cell).copied().unwrap_or(0),
            Place::All => self.all,
        }
    }

    /// Reserves capacity for the heads of these items' locations, and changes nothing else.
    pub fn reserve(&mut self, items: &[Item]) -> Result<(), AllocError>
        ensures ok { OnOk result (HasHeadsFor self.new items.now) }
        ensures same { AreSameHeads self.old self.new }
        ensures keeps { KeepsHeads self.old self.new }
        ensures succeeds { HasHeadsFor self.old items.now → IsOk result }
    {
        for item in items {
            self.reserve_place(item.place)?;
        }
        Ok(())
    }

    fn reserve_place(&mut self, place: Place) -> Result<(), AllocError>
        ensures ok { OnOk result (has_head self.new place ≡ true) }
        ensures same { AreSameHeads self.old self.new }
        ensures keeps { KeepsHeads self.old self.new }
        ensures succeeds { has_head self.old place ≡ true → IsOk result }
    {
        match place {
            Place::Cell(cell) => reserve_cell(&mut self.cells, cell, 0),
            Place::All => Ok(()),
        }
    }

    /// Sets the head of the location, in the capacity that is there.
    pub fn set(&mut self, place: Place, to: usize)
        requires { has_head self.old place ≡ true }
        ensures set { (p : APlace) → head self.new p ≡ (if is_place place p then to else head self.old p) }
        ensures keeps { KeepsHeads self.old self.new }
    {
        match place {
            Place::Cell(cell) => set_cell(&mut self.cells, cell, to),
            Place::All => self.all = to,
        }
    }
}
