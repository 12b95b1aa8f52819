//! Who holds each cell that was ever taken.

ghost use Rattle.std.specs.Prelude.{◌≡◌, ◌<◌, ℕ, [], OnOk, IsOk, Some, None, true, nat_eq, is_some, length, option_map, unwrap_or, if◌then◌else◌, slice_get};
ghost use Rattle.std.specs.Map.{lookup};

use indexmap::IndexMap;
use std::alloc::{AllocError, Global};
use std::marker::Model;
use tb_cells::{reserve_cell, set_cell};

/// Each cell that was ever taken, with the child that holds it. They are on the heap, where one was
/// ever taken: the children of most tasks take none.
#[derive(Drop)]
pub(crate) struct Cells {
    alloc: Global,
    map: Option<Box<IndexMap<u32, Option<u32>>>>,
}

impl Model for Cells {
    ghost use Rattle.std.specs.Prelude.{ℕ, List, Option};
    ghost use Rattle.tb_excl.specs.Search.{entries_in};

    ghost Value = { List (ℕ × Option ℕ) };

    ghost view = { λ c. entries_in c.map };
}

impl Cells {
    /// A map of no cells. Takes no memory.
    pub(crate) fn new(alloc: Global) -> Cells
        ensures { result ≡ [] }
    {
        Cells { alloc, map: None }
    }

    /// How many cells were ever taken.
    pub(crate) fn len(&self) -> usize
        ensures { result ≡ length self.now }
    {
        match &self.map {
            Some(map) => map.len(),
            None => 0,
        }
    }

    /// The cell at the index, with its holder.
    pub(crate) fn at(&self, place: usize) -> Option<(u32, Option<u32>)>
        ensures { result ≡ slice_get self.now place }
    {
        match &self.map {
            Some(map) => {
                let (cell, holder) = map.get_index(place)?;
                Some((*cell, *holder))
            }
            None => None,
        }
    }

    /// The child that holds the cell, if one does.
    pub(crate) fn holder(&self, cell: u32) -> Option<u32>
        ensures { result ≡ unwrap_or (lookup (nat_eq cell) self.now) None }
    {
        match &self.map {
            Some(map) => *map.get(&cell)?,
            None => None,
        }
    }

    /// Reserves capacity for a holder of the cell.
    pub(crate) fn reserve(&mut self, cell: u32) -> Result<(), AllocError>
        ensures ok { OnOk result (is_some (lookup (nat_eq cell) self.new) ≡ true) }
        ensures same { (c : ℕ) → unwrap_or (lookup (nat_eq c) self.new) None
            ≡ unwrap_or (lookup (nat_eq c) self.old) None }
        ensures keeps { (c : ℕ) → is_some (lookup (nat_eq c) self.old) ≡ true
            → is_some (lookup (nat_eq c) self.new) ≡ true }
        ensures succeeds { is_some (lookup (nat_eq cell) self.old) ≡ true → IsOk result }
    {
        if let Some(map) = &mut self.map {
            return reserve_cell(&mut **map, cell, None);
        }
        let mut map = Box::new(self.alloc, IndexMap::new(self.alloc))?;
        reserve_cell(&mut *map, cell, None)?;
        self.map = Some(map);
        Ok(())
    }

    /// Sets the cell's holder, where the cell has capacity.
    pub(crate) fn set(&mut self, cell: u32, to: Option<u32>)
        ensures { (c : ℕ) → lookup (nat_eq c) self.new
            ≡ (if nat_eq cell c then option_map (λ _. to) (lookup (nat_eq c) self.old) else lookup (nat_eq c) self.old) }
    {
        if let Some(map) = &mut self.map {
            set_cell(&mut **map, cell, to);
        }
    }
}
