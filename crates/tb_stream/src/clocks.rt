//! What an order puts in front of the steps that may still be asked about.

use crate::mark::Mark;
use tb_lanes::LaneBound;

/// What an order puts in front of the steps that may still be asked about, by lanes. A lane is a row
/// of tasks, each of which starts after the end of the one in front.
#[derive(Drop)]
pub struct Clocks {
    /// By the id of a task its newest step.
    pub newest: Vec<Option<Mark>>,
    /// By the id of a task the step that generated it.
    pub origins: Vec<Option<Mark>>,
    /// In each row how far the lanes are in front, the lanes rising.
    pub rows: Vec<Vec<LaneBound>>,
    /// For each lane the index of its newest step.
    pub lasts: Vec<usize>,
}
