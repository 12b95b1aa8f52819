//! A step at a cell or at the output.

use crate::mark::Mark;

/// A step at a cell or at the output.
#[derive(Clone, Copy)]
pub struct Access {
    pub mark: Mark,
    /// The step's ordinal among those of its task, from 1.
    pub k: u32,
}
