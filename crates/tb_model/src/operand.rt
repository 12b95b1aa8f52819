//! Where a statement takes a value from.

/// A value that is in the program, or a register of the task, 0 to 15.
#[derive(Clone, Copy, Debug, Drop, PartialEq, Eq)]
pub enum Operand {
    Number(i64),
    Register(u8),
}
