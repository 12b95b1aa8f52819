//! What a seat retains of a change that it made.

use tb_model::Entry;

/// The entry that a seat made, and its slot in the journal.
#[derive(Debug, Drop)]
pub struct Receipt {
    pub place: u32,
    pub entry: Entry,
}
