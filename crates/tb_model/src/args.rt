//! The arguments of a task.

ghost use Rattle.std.specs.Prelude.{◌≡◌, ◌↔◌, [], OnOk, OnErr, IsTrue, ◌++◌, ◌∷◌};

use crate::boxed_list::BoxedList;
use std::alloc::{AllocError, Global};
use std::fmt;
use std::marker::Model;

/// The arguments of a task, in the order of its registers.
#[derive(Drop)]
pub struct Args {
    list: BoxedList<i64>,
}

impl Model for Args {
    ghost use Rattle.std.specs.Prelude.{List, ℤ};

    ghost Value = { List ℤ };

    ghost view = { λ a. a.list };
}

impl Args {
    /// No arguments. Takes no memory.
    pub fn new(alloc: Global) -> Args
        ensures { result ≡ [] }
    {
        Args {
            list: BoxedList::new(alloc),
        }
    }

    /// Adds an argument after the others.
    pub fn push(&mut self, value: i64) -> Result<(), AllocError>
        ensures ok { OnOk result (self.new ≡ self.old ++ value ∷ []) }
        ensures err { OnErr result (self.new ≡ self.old) }
    {
        self.list.push(value)
    }

    /// The arguments, in order.
    pub fn as_slice(&self) -> &[i64]
        ensures { result.now ≡ self.now }
    {
        self.list.as_slice()
    }

    /// Whether both have the same values.
    pub fn is_same(&self, other: &Args) -> bool
        ensures { IsTrue result ↔ (self.now ≡ other.now) }
    {
        self.as_slice() == other.as_slice()
    }
}

impl Clone for Args {
    ghost is_clone = { λ a b. b ≡ a };

    fn clone(&self) -> Result<Args, AllocError> {
        Ok(Args {
            list: self.list.copy()?,
        })
    }
}

impl fmt::Debug for Args {
    fn fmt<W: fmt::Write>(&self, f: &mut fmt::Formatter<W>) -> fmt::Result {
        f.debug_list().entries(self.as_slice()).finish()
    }
}
