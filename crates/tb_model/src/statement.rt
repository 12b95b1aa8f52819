//! A statement of a body.

use crate::clauses::Clauses;
use crate::condition::Condition;
use crate::if_clause::IfClause;
use crate::operand::Operand;
use crate::operands::Operands;
use crate::operator::Operator;
use std::mem::size_of;

/// A statement of a body, of which a task takes one at each step.
#[derive(Clone, Debug, Drop)]
pub enum Statement {
    /// The line that names the body, at which a pending task is.
    Start,
    Let {
        reg: u8,
        value: Operand,
    },
    /// A `let` with an operator.
    Compute {
        reg: u8,
        left: Operand,
        operator: Operator,
        right: Operand,
    },
    Load {
        reg: u8,
        address: Operand,
    },
    Store {
        address: Operand,
        value: Operand,
    },
    Print {
        value: Operand,
    },
    /// A `task` line: the child's body by its line, its arguments, depend clauses and `if` clause.
    Task {
        body: u32,
        args: Operands,
        depends: Clauses,
        condition: IfClause,
    },
    Taskwait {
        depends: Clauses,
    },
    Taskgroup,
    EndTaskgroup,
    /// An `if` or a `while`.
    Test {
        condition: Condition,
    },
    /// The end of the body.
    End,
}

const _: () = prove!(size_of::<Statement>() == 56);
