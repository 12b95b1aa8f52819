//! The depend clauses of a statement.

ghost use Rattle.std.specs.Prelude.{◌≡◌, IfOk, [], OnOk, OnErr, ◌++◌, ◌∷◌};

use crate::clause::Clause;
use crate::heap_list::HeapList;
use std::alloc::{AllocError, Global};
use std::marker::Model;

/// The depend clauses of a statement, in the order in which they were written.
#[derive(Drop, Debug)]
pub struct Clauses {
    list: HeapList<Clause>,
}

impl Model for Clauses {
    ghost use Rattle.std.specs.Prelude.{List};
    ghost use Rattle.tb_model.specs.declared.clause.Clause.{Clause};

    ghost Value = { List Clause };

    ghost view = { λ a. a.list };
}

impl Clauses {
    /// No clauses. Takes no memory.
    pub fn new(alloc: Global) -> Clauses
        ensures { result ≡ [] }
    {
        Clauses {
            list: HeapList::new(alloc),
        }
    }

    /// Adds a clause after the others.
    pub fn push(&mut self, clause: Clause) -> Result<(), AllocError>
        ensures ok { OnOk result (self.new ≡ self.old ++ clause ∷ []) }
        ensures err { OnErr result (self.new ≡ self.old) }
    {
        self.list.push(clause)
    }

    /// The clauses, in order.
    pub fn as_slice(&self) -> &[Clause]
        ensures { result.now ≡ self.now }
    {
        self.list.as_slice()
    }
}

impl Clone for Clauses {
    ghost is_clone = { λ a b. b ≡ a };

    fn clone(&self) -> Result<Clauses, AllocError> {
        Ok(Clauses {
            list: self.list.copy()?,
        })
    }
}
