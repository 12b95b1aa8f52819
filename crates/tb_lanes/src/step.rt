//! A step of the clocks.

/// A step for which a clock is made: its index, the index of its row so far, and its lane.
#[derive(Drop)]
pub struct Step {
    pub at: usize,
    pub row: usize,
    pub lane: usize,
}
