//! Comparisons of a test.

/// A comparison of two signed numbers.
#[derive(Clone, Copy, Debug, Drop, PartialEq, Eq)]
pub enum Comparison {
    Equal,
    Unequal,
    Less,
    AtMost,
}
