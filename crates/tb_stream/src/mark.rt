//! A step that may still be asked about.

/// A step that may still be asked about.
#[derive(Clone, Copy)]
pub struct Mark {
    /// The step's index in the run.
    pub at: usize,
    pub lane: usize,
    /// The index of its row, one more, and 0 where nothing was joined.
    pub row: usize,
    /// The id of its task.
    pub task: usize,
}
