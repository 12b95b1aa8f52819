//! Arithmetic of a `let`.

/// An operation on two values, which wraps in 64-bit two's complement.
#[derive(Clone, Copy, Debug, Drop, PartialEq, Eq)]
pub enum Operator {
    Plus,
    Minus,
    Times,
}
