//! The write-once cells of a journal's slots.

ghost use Rattle.std.specs.Prelude.{◌≡◌, ◌+◌, ◌-◌, ◌<◌, ◌≤◌, length, slice_index, IfOk, IfSome, Some};

use once_cell::race::{Note, OnceBox};
use std::alloc::{AllocError, Global};
use std::marker::Model;
use tb_model::Entry;

/// A write-once cell for each slot of a journal from the first on that has one. Contracts see the
/// cells' names by their slots.
#[derive(Drop)]
pub struct Places {
    first: u32,
    cells: Vec<OnceBox<Entry>>,
}

impl Model for Places {
    ghost use Rattle.std.specs.Prelude.{◌++◌, ◌≤◌, map, replicate};
    ghost use Rattle.once_cell.specs.Once.{cell_name};
    ghost use Rattle.tb_work.specs.Slots.{Slots};

    ghost Value = { Slots };

    ghost view = { λ p. record { first = p.first; cells = replicate p.first 0 ++ map cell_name p.cells.items } };

    ghost invariant = { λ p. 1 ≤ p.first };
}

impl Places {
    /// A cell for each slot of a journal of so many, but for the first one, where no seat makes an
    /// entry. None is written.
    pub fn new(alloc: Global, limit: u32) -> Result<Places, AllocError>
        ensures first { IfOk result (λ p. p.first ≡ 1) }
        ensures len { IfOk result (λ p. length p.cells ≡ 1 + (limit - 1)) }
    {
        Places::after(alloc, 1, limit)
    }

    /// A cell for each slot of a journal of so many, but for the first ones, of which there is one at
    /// least. None is written.
    #[tactic(auto, using(crate::proofs::Slotted::slots_length))]
    pub fn after(alloc: Global, first: u32, limit: u32) -> Result<Places, AllocError>
        requires { 1 ≤ first }
        ensures first { IfOk result (λ p. p.first ≡ first) }
        ensures len { IfOk result (λ p. length p.cells ≡ first + (limit - first)) }
    {
        let count = limit.saturating_sub(first);
        let mut cells = Vec::with_capacity(alloc, count as usize)?;
        for _slot in 0..count {
            cells.push(OnceBox::new(alloc))?;
        }
        Ok(Places { first, cells })
    }

    /// The first slot that has a cell.
    pub fn first(&self) -> u32
        ensures first { result ≡ self.now.first }
        ensures some { 1 ≤ result }
    {
        self.first
    }

    /// How many slots the journal has.
    pub fn len(&self) -> usize
        ensures { result ≡ length self.now.cells }
    {
        self.first as usize + self.cells.as_slice().len()
    }

    /// Writes the entry to the slot's cell and gives a note of it, or None where the cell is written
    /// already.
    pub(crate) fn write(&self, place: u32, entry: Box<Entry>) -> Option<Note<Entry>>
        requires from { self.now.first ≤ place }
        requires within { place < length self.now.cells }
        ensures { IfSome result (λ n. (n.cell ≡ slice_index self.now.cells place) × (n.known ≡ Some entry.value)) }
    {
        let cell = &self.cells[(place - self.first) as usize];
        let mut note = cell.note();
        match cell.set_as(entry, &mut note) {
            Ok(()) => Some(note),
            Err(_) => None,
        }
    }
}
