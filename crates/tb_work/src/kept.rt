//! A receipt with what is known of its slot's cell.

ghost use Rattle.std.specs.Prelude.{◌≡◌, ◌≤◌, slice_index, Some};

use crate::receipt::Receipt;
use crate::team::Team;
use once_cell::race::Note;
use std::marker::PhantomData;
use tb_model::Entry;

/// A receipt, and that the slot's cell holds its entry.
#[derive(Drop)]
pub struct Kept<N: Team> {
    pub receipt: Receipt,
    pub note: Note<Entry>,
    pub team: PhantomData<N>,
    pub ghost from: { N.slots.first ≤ receipt.place },
    pub ghost at: { note.cell ≡ slice_index N.slots.cells receipt.place },
    pub ghost known: { note.known ≡ Some receipt.entry },
}
