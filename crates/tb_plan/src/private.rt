//! Statements that a task takes by itself.

ghost use Rattle.std.specs.Prelude.{◌≡◌};
ghost use Rattle.std.specs.Option.{option_map};
ghost use Rattle.tb_plan.specs.Privacy.{statement_of, private_statement};

use tb_model::{Condition, Operand, Operator, Statement};

/// A `let`, an `if` or a `while`: it reads and writes the registers of its task, and nothing that
/// another task sees.
#[derive(Clone, Copy, Debug, Drop)]
pub enum Private {
    Let {
        reg: u8,
        value: Operand,
    },
    /// A `let` with an operator.
    Compute {
        reg: u8,
        left: Operand,
        operator: Operator,
        right: Operand,
    },
    /// An `if` or a `while`.
    Test {
        condition: Condition,
    },
}

impl Private {
    /// The statement, where it is private.
    pub(crate) fn of(statement: &Statement) -> Option<Private>
        ensures { option_map statement_of result ≡ private_statement statement.now }
    {
        match statement {
            Statement::Let { reg, value } => Some(Private::Let {
                reg: *reg,
                value: *value,
            }),
            Statement::Compute {
                reg,
                left,
                operator,
                right,
            } => Some(Private::Compute {
                reg: *reg,
                left: *left,
                operator: *operator,
                right: *right,
            }),
            Statement::Test { condition } => Some(Private::Test {
                condition: *condition,
            }),
            _ => None,
        }
    }

    pub(crate) fn statement(self) -> Statement
        ensures { result ≡ statement_of self }
    {
        match self {
            Private::Let { reg, value } => Statement::Let { reg, value },
            Private::Compute {
                reg,
                left,
                operator,
                right,
            } => Statement::Compute {
                reg,
                left,
                operator,
                right,
            },
            Private::Test { condition } => Statement::Test { condition },
        }
    }
}
