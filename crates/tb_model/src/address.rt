//! The address of an item of a depend clause.

use crate::operand::Operand;

/// The address of a cell, still to be worked out, or all memory, which is no address.
#[derive(Clone, Copy, Debug, Drop, PartialEq, Eq)]
pub enum Address {
    Cell(Operand),
    All,
}
