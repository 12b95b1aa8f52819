//! How far a task is.

/// How far a task is.
#[derive(Clone, Copy, Debug, Drop, PartialEq, Eq)]
pub enum Status {
    Pending,
    Running,
    Ended,
    Faulted,
}
