//! An open block of a text.

/// An open block, by what its `end` does.
#[derive(Clone, Copy, Debug, Drop, PartialEq, Eq)]
pub enum Block {
    /// A body, by the line that begins it.
    Bodied { line: u32 },
    /// An `if` whose `else` may still come.
    Tested,
    /// An `if` after its `else`.
    Turned,
    /// A `while`, by its line.
    Looped { line: u32 },
    /// A `taskgroup`.
    Grouped,
}
