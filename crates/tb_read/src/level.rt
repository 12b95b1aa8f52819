//! An open block, as the lines after say.

/// Where an open block ends, and where a test of it that says no goes on: after its `else`, or
/// after its `end`. Both are lines.
#[derive(Clone, Copy, Debug, Drop, PartialEq, Eq)]
pub struct Level {
    pub end: u32,
    pub turn: u32,
}
