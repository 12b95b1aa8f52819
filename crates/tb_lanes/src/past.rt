//! What has been made of an order so far.

use crate::clocks::Clocks;
use crate::ends::Ends;
use crate::rows::Rows;
use std::alloc::Global;

/// An order of the first steps of a history, with exclusion or without.
#[derive(Drop)]
pub struct Past {
    pub alloc: Global,
    pub exclusion: bool,
    /// What it puts in front of each.
    pub clocks: Clocks,
    /// All ends.
    pub ends: Ends,
    /// The ends by what waits for them.
    pub rows: Rows,
    /// The index of the first end in whose lane no step went on: none of those in front of it is
    /// the last of its lane.
    pub free: usize,
    /// The ends that were joined to the newest step.
    pub joined: Vec<usize>,
}
