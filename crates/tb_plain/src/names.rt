//! Lists of names.

ghost use Rattle.std.specs.Prelude.{◌≡◌, [], ◌∷◌, OnOk, OnErr};

use std::alloc::{AllocError, Global};
use std::marker::Model;
use tb_model::TaskName;

/// Names of tasks, in an order.
#[derive(Drop, Debug)]
pub struct Names {
    list: Vec<TaskName>,
}

impl Model for Names {
    ghost use Rattle.std.specs.Prelude.{List, ℕ};

    ghost Value = { List (List ℕ) };

    ghost view = { λ a. a.list.items };
}

impl Names {
    /// No names. Takes no memory.
    pub fn new(alloc: Global) -> Names
        ensures { result ≡ [] }
    {
        Names {
            list: Vec::new(alloc),
        }
    }

    /// Puts a name in front of the others.
    pub fn push_front(&mut self, name: TaskName) -> Result<(), AllocError>
        ensures ok { OnOk result (self.new ≡ name ∷ self.old) }
        ensures err { OnErr result (self.new ≡ self.old) }
    {
        self.list.insert(0, name)?;
        Ok(())
    }

    /// The names, in order.
    pub fn as_slice(&self) -> &[TaskName]
        ensures { result.now ≡ self.now }
    {
        self.list.as_slice()
    }
}

impl Clone for Names {
    ghost is_clone = { λ a b. b ≡ a };

    fn clone(&self) -> Result<Names, AllocError> {
        Ok(Names {
            list: self.list.clone()?,
        })
    }
}
