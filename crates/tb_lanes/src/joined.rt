//! What is in front of a step that waits.

use crate::lane_bound::LaneBound;

/// What is in front of a step that waits, as far as its ends were found.
#[derive(Drop)]
pub struct Joined {
    /// How far each lane is in front, by some rows.
    pub rows: Vec<Vec<LaneBound>>,
    /// An end that was added, one that is the newest of its lane if there is one.
    pub end: Option<usize>,
    /// All that were added.
    pub ends: Vec<usize>,
}
