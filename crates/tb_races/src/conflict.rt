//! What two steps share whose order can be seen.

/// What two steps share whose order can be seen.
#[derive(Clone, Copy, Debug, Drop, PartialEq, Eq)]
pub enum Conflict {
    /// A cell, by its index, from 0: both touch it, and at least one of them stores.
    Cell { cell: u32 },
    /// The output: both print.
    Print,
}
