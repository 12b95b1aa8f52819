//! The `if` clause of a `task` line.

ghost use Rattle.std.specs.Prelude.{◌≡◌, None, IfOk};

use crate::condition::Condition;
use std::alloc::{AllocError, Global};
use std::marker::Model;

/// The `if` clause of a `task` line, by which a task is deferred or not (OpenMP 5.2, sections 3.4
/// and 12.5). Most lines have none, so the test is on the heap, where there is one.
#[derive(Drop, Debug)]
pub struct IfClause {
    condition: Option<Box<Condition>>,
}

impl Model for IfClause {
    ghost use Rattle.std.specs.Prelude.{Option};
    ghost use Rattle.tb_model.specs.declared.condition.Condition.{Condition};
    ghost use Rattle.tb_model.specs.Heaped.{value_in};

    ghost Value = { Option Condition };

    ghost view = { λ a. value_in a.condition };
}

impl IfClause {
    /// No clause. Takes no memory.
    pub fn none() -> IfClause
        ensures { result ≡ None }
    {
        IfClause { condition: None }
    }

    /// The clause with this test. Takes memory only for a test.
    pub fn new(alloc: Global, condition: Option<Condition>) -> Result<IfClause, AllocError>
        ensures { IfOk result (λ c. c ≡ condition) }
    {
        let condition = match condition {
            Some(condition) => Some(Box::new(alloc, condition)?),
            None => None,
        };
        Ok(IfClause { condition })
    }

    /// The test, where there is a clause.
    #[inline(always)]
    pub fn get(&self) -> Option<Condition>
        ensures { result ≡ self.now }
    {
        match &self.condition {
            Some(condition) => Some(**condition),
            None => None,
        }
    }
}

impl Clone for IfClause {
    ghost is_clone = { λ a b. b ≡ a };

    fn clone(&self) -> Result<IfClause, AllocError> {
        let condition = match &self.condition {
            Some(condition) => Some(condition.clone()?),
            None => None,
        };
        Ok(IfClause { condition })
    }
}
