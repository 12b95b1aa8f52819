//! What has been made of all needs so far.

use crate::pending::Pending;
use std::alloc::Global;
use tb_lanes::{Clocks, Kept, Past};

/// The first steps of a history by all that they need.
#[derive(Drop)]
pub struct Needs {
    pub alloc: Global,
    /// The order with exclusion, by which the ends are found that a step waits for.
    pub past: Past,
    /// What all needs put in front of each.
    pub clocks: Clocks,
    /// Of each cell and of the output the steps that a later one may need for it.
    pub kept: Kept,
    /// For which steps a later one may still ask.
    pub pending: Pending,
}
