//! A receipt without its slot.

use crate::closed::Closed;

/// A receipt's slot isn't in the journal.
#[derive(Drop)]
pub struct Gap {
    pub place: u32,
    pub closed: Closed,
}
