//! The test of an `if`, a `while` or an `if` clause.

use crate::comparison::Comparison;
use crate::operand::Operand;

/// A comparison of two operands.
#[derive(Clone, Copy, Debug, Drop, PartialEq, Eq)]
pub struct Condition {
    pub left: Operand,
    pub comparison: Comparison,
    pub right: Operand,
}
