//! The operands of a `task` line.

ghost use Rattle.std.specs.Prelude.{◌≡◌, IfOk, [], OnOk, OnErr, ◌++◌, ◌∷◌};

use crate::heap_list::HeapList;
use crate::operand::Operand;
use std::alloc::{AllocError, Global};
use std::marker::Model;

/// The arguments of a `task` line as they are written, in order.
#[derive(Drop, Debug)]
pub struct Operands {
    list: HeapList<Operand>,
}

impl Model for Operands {
    ghost use Rattle.std.specs.Prelude.{List};
    ghost use Rattle.tb_model.specs.declared.operand.Operand.{Operand};

    ghost Value = { List Operand };

    ghost view = { λ a. a.list };
}

impl Operands {
    /// No arguments. Takes no memory.
    pub fn new(alloc: Global) -> Operands
        ensures { result ≡ [] }
    {
        Operands {
            list: HeapList::new(alloc),
        }
    }

    /// Adds an argument after the others.
    pub fn push(&mut self, operand: Operand) -> Result<(), AllocError>
        ensures ok { OnOk result (self.new ≡ self.old ++ operand ∷ []) }
        ensures err { OnErr result (self.new ≡ self.old) }
    {
        self.list.push(operand)
    }

    /// The arguments, in order.
    pub fn as_slice(&self) -> &[Operand]
        ensures { result.now ≡ self.now }
    {
        self.list.as_slice()
    }
}

impl Clone for Operands {
    ghost is_clone = { λ a b. b ≡ a };

    fn clone(&self) -> Result<Operands, AllocError> {
        Ok(Operands {
            list: self.list.copy()?,
        })
    }
}
