//! Names and their marks, by index.

ghost use Rattle.std.specs.Prelude.{◌≡◌, ◌<◌, ◌≤◌, ◌+◌, [], ◌∷◌, ◌++◌, OnOk, OnErr, IsOk, IfSome, IsSome, IsTrue, Some, None, false, length, slice_get, remove};
ghost use Rattle.std.specs.List.{IsDistinct};
ghost use Rattle.std.specs.Map.{keys_of};
ghost use Rattle.tb_model.specs.Names.{same_name};
ghost use Rattle.tb_ready.specs.Tasks.{mark_of};
ghost use Rattle.tb_ready.specs.Layout.{name_at, mark_at, set_at, AreUnique, StandsAt};

use indexmap::IndexMap;
use slab::Slab;
use std::alloc::{AllocError, Global};
use std::marker::Model;
use tb_model::TaskName;

/// The names in the order of spawning. Each has a record in the slab, which holds its mark.
#[derive(Drop)]
pub(crate) struct Names {
    keys: IndexMap<TaskName, usize>,
    marks: Slab<bool>,
    // the index that changed last: mostly its name is asked for again, or the one after it
    near: usize,
}

impl Model for Names {
    ghost use Rattle.std.specs.Prelude.{◌≡◌, ◌-◌, true, min};
    ghost use Rattle.std.specs.List.{IsDistinct};
    ghost use Rattle.std.specs.Map.{keys_of};
    ghost use Rattle.indexmap.specs.IndexMap.{spare};
    ghost use Rattle.slab.specs.Slab.{slab_len};
    ghost use Rattle.tb_model.specs.Names.{same_name};
    ghost use Rattle.tb_ready.specs.Tasks.{Tasks};
    ghost use Rattle.tb_ready.specs.Layout.{tasks_of, are_kept};

    ghost Value = { Tasks };

    ghost view = { λ n. record { tasks = tasks_of n.keys.entries n.marks.slots; room = min (spare n.keys) (n.marks.capacity - slab_len n.marks) } };

    ghost invariant = { λ n. (are_kept n.keys.entries n.marks.slots ≡ true) × IsDistinct same_name (keys_of n.keys.entries) };
}

impl Names {
    /// No names. Takes no memory.
    pub(crate) fn new(alloc: Global) -> Names
        ensures { result.tasks ≡ [] }
    {
        Names {
            keys: IndexMap::new(alloc),
            marks: Slab::new(alloc),
            near: 0,
        }
    }

    /// How many names there are.
    #[tactic(auto, using(crate::proofs::LayoutLemmas::length_tasks))]
    pub(crate) fn len(&self) -> usize
        ensures len { result ≡ length self.now.tasks }
        ensures distinct { IsDistinct same_name (keys_of self.now.tasks) }
    {
        self.keys.len()
    }

    /// The index of a name.
    pub(crate) fn find(&self, name: &TaskName) -> Option<usize>
        ensures found { IfSome result (StandsAt self.now.tasks name.now) }
        ensures absent { result ≡ None → mark_of self.now.tasks name.now ≡ None }
        ensures unique { AreUnique self.now.tasks }
    {
        if self.stands_at(self.near, name) {
            return Some(self.near);
        }
        let next = self.near.saturating_add(1);
        if self.stands_at(next, name) {
            return Some(next);
        }
        self.keys.get_index_of(name)
    }

    /// The index of a name, mostly this one.
    pub(crate) fn find_near(&self, near: usize, name: &TaskName) -> Option<usize>
        ensures found { IfSome result (StandsAt self.now.tasks name.now) }
        ensures absent { result ≡ None → mark_of self.now.tasks name.now ≡ None }
        ensures unique { AreUnique self.now.tasks }
    {
        if self.stands_at(near, name) {
            return Some(near);
        }
        self.find(name)
    }

    /// The index that changed last.
    pub(crate) fn near(&self) -> usize {
        self.near
    }

    /// Whether the name is at the index.
    fn stands_at(&self, at: usize, name: &TaskName) -> bool
        ensures stands { IsTrue result → StandsAt self.now.tasks name.now at }
        ensures unique { AreUnique self.now.tasks }
    {
        match self.keys.get_index(at) {
            Some((key, _)) => *key == *name,
            None => false,
        }
    }

    /// The name at an index.
    #[tactic(auto, using(crate::proofs::LayoutLemmas::length_tasks))]
    pub(crate) fn name(&self, at: usize) -> &TaskName
        requires { at < length self.now.tasks }
        ensures name { result.now ≡ name_at self.now.tasks at }
        ensures unique { AreUnique self.now.tasks }
    {
        entry(&self.keys, at).0
    }

    /// Whether the name at an index is marked.
    #[tactic(auto, using(crate::proofs::LayoutLemmas::length_tasks))]
    pub(crate) fn is_marked(&self, at: usize) -> bool
        requires { at < length self.now.tasks }
        ensures mark { result ≡ mark_at self.now.tasks at }
        ensures unique { AreUnique self.now.tasks }
    {
        let (_, key) = entry(&self.keys, at);
        self.marks[key]
    }

    /// Sets the mark of the name at an index.
    #[tactic(auto, using(crate::proofs::LayoutLemmas::length_tasks))]
    pub(crate) fn set(&mut self, at: usize, marked: bool)
        requires { at < length self.old.tasks }
        ensures tasks { self.new.tasks ≡ set_at self.old.tasks at marked }
        ensures room { self.new.room ≡ self.old.room }
    {
        let (_, key) = entry(&self.keys, at);
        self.marks[key] = marked;
        self.near = at;
    }

    /// Reserves the capacity for one more name.
    pub(crate) fn reserve(&mut self) -> Result<(), AllocError>
        ensures tasks { self.new.tasks ≡ self.old.tasks }
        ensures room { OnOk result (0 < self.new.room) }
        ensures succeeds { 0 < self.old.room → IsOk result }
        ensures keeps { self.old.room ≤ self.new.room }
    {
        self.keys.reserve(1)?;
        self.marks.reserve(1)
    }

    /// Adds a name after the others, unmarked, in the capacity that is there.
    pub(crate) fn push(&mut self, name: TaskName)
        requires room { 0 < self.old.room }
        requires absent { mark_of self.old.tasks name ≡ None }
        ensures tasks { self.new.tasks ≡ self.old.tasks ++ (name, false) ∷ [] }
        ensures room { self.old.room ≤ self.new.room + 1 }
    {
        self.near = self.keys.len();
        let key = self.marks.insert_reserved(false);
        self.keys.insert(name, key).unwrap();
    }

    /// Removes the name at an index. Those after it move up.
    #[tactic(auto, using(crate::proofs::LayoutLemmas::length_tasks))]
    pub(crate) fn remove(&mut self, at: usize)
        requires { at < length self.old.tasks }
        ensures tasks { self.new.tasks ≡ remove self.old.tasks at }
        ensures room { self.old.room ≤ self.new.room }
    {
        let (_, key) = entry(&self.keys, at);
        self.marks.remove(key);
        let _entry = self.keys.shift_remove_index(at);
        self.near = at.saturating_sub(1);
    }
}

/// The name at an index, and the key of its record.
fn entry(keys: &IndexMap<TaskName, usize>, at: usize) -> (&TaskName, usize)
    requires { at < length keys.now.entries }
    ensures { slice_get keys.now.entries at ≡ Some (result.0.now, result.1) }
{
    let (name, key) = keys.get_index(at).unwrap();
    (name, *key)
}
