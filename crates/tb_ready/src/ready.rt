//! The tasks by name.

ghost use Rattle.std.specs.Prelude.{◌≡◌, ◌<◌, ◌≤◌, ◌+◌, [], IsOk, OnOk, OnErr, IfSome, IsSome, is_some, None, unwrap_or, false, length, slice_get};
ghost use Rattle.std.specs.Option.{option_copied};
ghost use Rattle.std.specs.List.{IsDistinct};
ghost use Rattle.std.specs.Map.{keys_of};
ghost use Rattle.tb_model.specs.Names.{same_name};
ghost use Rattle.tb_model.specs.LeastNames.{IsLeastName};
ghost use Rattle.tb_ready.specs.Tasks.{mark_of, with_name, without_name, with_mark, IsLeast, IsMarkedBehind};

use crate::gapped::Gapped;
use crate::names::Names;
use crate::order::{forget, index_of, least, next_marked, set_mark};
use std::alloc::{AllocError, Global};
use std::marker::Model;
use tb_model::TaskName;

/// The tasks by name in the order of spawning, and which of them are marked.
#[derive(Drop)]
pub struct Ready {
    names: Names,
    // the indexes of the marked names, by rising name, with capacity for all names; tasks mostly
    // come and go close to those that came or went before
    order: Gapped,
    // where in that order a mark changed last: mostly the next change is there too
    near: usize,
}

impl Model for Ready {
    ghost use Rattle.std.specs.Prelude.{◌≤◌, ◌-◌, min, length};
    ghost use Rattle.tb_ready.specs.Tasks.{Tasks};
    ghost use Rattle.tb_ready.specs.Order.{IsOrder};

    ghost Value = { Tasks };

    ghost view = { λ r. record { tasks = r.names.tasks; room = min r.names.room (r.order.capacity - length r.names.tasks) } };

    ghost invariant = { λ r. IsOrder r.names.tasks r.order.items × (length r.names.tasks ≤ r.order.capacity) };
}

impl Ready {
    /// No task. Takes no memory.
    pub fn new(alloc: Global) -> Ready
        ensures { result.tasks ≡ [] }
    {
        Ready {
            names: Names::new(alloc),
            order: Gapped::new(alloc),
            near: 0,
        }
    }

    /// How many names there are. No name is there twice.
    pub fn len(&self) -> usize
        ensures len { result ≡ length self.now.tasks }
        ensures distinct { IsDistinct same_name (keys_of self.now.tasks) }
    {
        self.names.len()
    }

    /// The name at this index, in the order of spawning.
    #[tactic(auto, using(crate::proofs::TasksLemmas::nth_name, crate::proofs::TasksLemmas::nth_none))]
    pub fn nth(&self, index: usize) -> Option<&TaskName>
        ensures { option_copied result ≡ slice_get (keys_of self.now.tasks) index }
    {
        if index < self.names.len() {
            Some(self.names.name(index))
        } else {
            None
        }
    }

    /// Whether the name is there.
    pub fn is_there(&self, name: &TaskName) -> bool
        ensures { result ≡ is_some (mark_of self.now.tasks name.now) }
    {
        self.names.find(name).is_some()
    }

    /// Whether the name is there and marked.
    pub fn can(&self, name: &TaskName) -> bool
        ensures { result ≡ unwrap_or (mark_of self.now.tasks name.now) false }
    {
        match self.names.find(name) {
            Some(at) => self.names.is_marked(at),
            None => false,
        }
    }

    /// The least marked name that is none of those to skip.
    pub fn least(&self, skip: &[TaskName]) -> Option<&TaskName>
        ensures { IsLeast self.now.tasks skip.now (option_copied result) }
    {
        least(&self.names, &self.order, skip)
    }

    /// The least marked name after this one, or the least of all where none is given.
    pub fn next_marked(&self, after: Option<&TaskName>) -> Option<&TaskName>
        ensures { IsLeastName (IsMarkedBehind self.now.tasks (option_copied after.entry)) (option_copied result) }
    {
        let mut walk = self.near;
        self.walk_marked(&mut walk, after)
    }

    /// The least marked name after this one, or the least of all, in a walk over the marked names:
    /// `walk` is handed on, at first any, so each is found right after the one before it.
    pub fn walk_marked(&self, walk: &mut usize, after: Option<&TaskName>) -> Option<&TaskName>
        ensures { IsLeastName (IsMarkedBehind self.now.tasks (option_copied after.entry)) (option_copied result) }
    {
        next_marked(&self.names, &self.order, walk, self.near, after)
    }

    /// The index, in the order of spawning, of the name that a walk over the marked names found
    /// last.
    pub fn index_in(&self, walk: usize) -> Option<usize>
        ensures { IfSome result (λ i. i < length self.now.tasks) }
    {
        index_of(&self.names, &self.order, walk)
    }

    /// Reserves the capacity that `add` needs, whatever the name, and changes nothing else.
    pub fn reserve_add(&mut self, _name: &TaskName) -> Result<(), AllocError>
        ensures tasks { self.new.tasks ≡ self.old.tasks }
        ensures room { OnOk result (0 < self.new.room) }
        ensures succeeds { 0 < self.old.room → IsOk result }
        ensures keeps { self.old.room ≤ self.new.room }
    {
        self.names.reserve()?;
        self.order.reserve(self.names.len() - self.order.len() + 1)
    }

    /// Adds a name after the others, unmarked. One that is there stays as it is, and needs no
    /// memory. With capacity none is taken, and `mark` never takes any.
    pub fn add(&mut self, name: TaskName) -> Result<(), AllocError>
        ensures tasks { OnOk result (self.new.tasks ≡ with_name self.old.tasks name) }
        ensures err { OnErr result (self.new.tasks ≡ self.old.tasks) }
        ensures succeeds { 0 < self.old.room → IsOk result }
        ensures there { IsSome (mark_of self.old.tasks name) → IsOk result }
        ensures keeps { self.old.room ≤ self.new.room + 1 }
    {
        if self.is_there(&name) {
            return Ok(());
        }
        self.reserve_add(&name)?;
        self.add_reserved(name);
        Ok(())
    }

    /// Adds a name that isn't there after the others, unmarked, in the capacity that there is.
    #[inline(always)]
    pub fn add_reserved(&mut self, name: TaskName)
        requires absent { mark_of self.old.tasks name ≡ None }
        requires room { 0 < self.old.room }
        ensures tasks { self.new.tasks ≡ with_name self.old.tasks name }
        ensures keeps { self.old.room ≤ self.new.room + 1 }
    {
        self.names.push(name);
    }

    /// Removes a name, marked or not. Where it isn't there, nothing changes.
    pub fn remove(&mut self, name: &TaskName)
        ensures tasks { self.new.tasks ≡ without_name self.old.tasks name.now }
        ensures room { self.old.room ≤ self.new.room }
    {
        if let Some(at) = self.names.find(name) {
            let near = forget(&mut self.names, &mut self.order, self.near, at);
            self.near = near;
        }
    }

    /// Sets the mark of a name. Where it isn't there, nothing changes.
    pub fn mark(&mut self, name: &TaskName, marked: bool)
        ensures tasks { self.new.tasks ≡ with_mark self.old.tasks name.now marked }
        ensures room { self.old.room ≤ self.new.room }
    {
        let near = self.names.near();
        self.mark_near(near, name, marked);
    }

    /// Sets the mark of a name, which is looked for at this index first, which may be any. Where it
    /// isn't there, nothing changes.
    pub fn mark_near(&mut self, near: usize, name: &TaskName, marked: bool)
        ensures tasks { self.new.tasks ≡ with_mark self.old.tasks name.now marked }
        ensures room { self.old.room ≤ self.new.room }
    {
        if let Some(at) = self.names.find_near(near, name) {
            let near = set_mark(&mut self.names, &mut self.order, self.near, at, marked);
            self.near = near;
        }
    }
}
