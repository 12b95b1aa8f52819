//! A step that may wait.

/// A step that may wait: its index, its lane, whose children it may wait for, and from where on.
#[derive(Drop)]
pub struct Waiter {
    pub at: usize,
    pub lane: usize,
    /// The id of the task.
    pub parent: usize,
    /// An index in front of which there is no end to which it is linked.
    pub from: usize,
}
