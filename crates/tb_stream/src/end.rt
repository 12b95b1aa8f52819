//! The end of a task.

use crate::mark::Mark;

/// The end of a task, in a row of ends. It comes after those right in front of it in the row, from
/// the one with this index on.
#[derive(Clone, Copy)]
pub struct End {
    pub mark: Mark,
    pub skip: usize,
}
