//! What is known of the cell of a slot under the lock.

use once_cell::race::Note;
use tb_model::Entry;

/// A slot, and what is known of its cell.
#[derive(Drop)]
pub struct Told {
    // for the proof: a note alone has no size, and no element of a slice may have none
    pub place: u32,
    pub note: Note<Entry>,
}
