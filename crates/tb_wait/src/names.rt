//! The names of the tasks, by their indexes.

ghost use Rattle.std.specs.Prelude.{◌≡◌, ◌<◌, ◌≤◌, ◌-◌, ◌++◌, ◌∷◌, [], false, IfOk, IsOk, OnOk, length, slice_get};
ghost use Rattle.std.specs.List.{IsDistinct, list_any};
ghost use Rattle.std.specs.Option.{option_copied};
ghost use Rattle.tb_model.specs.Names.{same_name};

use std::alloc::{AllocError, Global};
use std::marker::Model;
use tb_model::TaskName;

/// The names of all tasks that were ever generated, the root's first, each once.
#[derive(Drop)]
pub(crate) struct Names {
    names: Vec<TaskName>,
}

impl Model for Names {
    ghost use Rattle.std.specs.Prelude.{◌-◌, ◌≤◌, length, min, vec_capacity};
    ghost use Rattle.std.specs.List.{IsDistinct};
    ghost use Rattle.tb_model.specs.Names.{same_name};
    ghost use Rattle.tb_wait.specs.Names.{Names};

    ghost Value = { Names };

    ghost view = { λ n. record { keys = n.names.items; spare = min (vec_capacity n.names) 4294967295 - length n.names.items } };

    ghost invariant = { λ n. IsDistinct same_name n.names.items × (length n.names.items ≤ 4294967295) };
}

impl Names {
    /// The root's name alone.
    pub fn root(alloc: Global) -> Result<Names, AllocError>
        ensures { IfOk result (λ n. n.keys ≡ [] ∷ []) }
    {
        let mut names = Vec::with_capacity(alloc, 1)?;
        names.push_reserved(TaskName::root(alloc));
        Ok(Names { names })
    }

    /// The name at the index.
    #[inline(always)]
    pub fn get(&self, at: usize) -> Option<&TaskName>
        ensures key { option_copied result ≡ slice_get self.now.keys at }
        ensures distinct { IsDistinct same_name self.now.keys }
        ensures bound { length self.now.keys ≤ 4294967295 }
    {
        self.names.as_slice().get(at)
    }

    /// Reserves capacity for one more name. An index is stored in 32 bits, so there is none for
    /// further ones.
    pub fn reserve(&mut self) -> Result<(), AllocError>
        ensures keys { self.new.keys ≡ self.old.keys }
        ensures room { OnOk result (0 < self.new.spare) }
        ensures succeeds { 0 < self.old.spare → IsOk result }
        ensures keeps { self.old.spare ≤ self.new.spare }
    {
        if self.names.len() >= u32::MAX as usize {
            return Err(AllocError);
        }
        self.names.reserve(1)
    }

    /// One more name, which isn't there, at the next index.
    pub fn push(&mut self, name: TaskName)
        requires room { 0 < self.old.spare }
        requires absent { list_any (same_name name) self.old.keys ≡ false }
        ensures keys { self.new.keys ≡ self.old.keys ++ name ∷ [] }
        ensures spare { self.new.spare ≡ self.old.spare - 1 }
    {
        self.names.push_reserved(name);
    }
}
