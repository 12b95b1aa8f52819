//! Where a name is looked for first.

ghost use Rattle.std.specs.Prelude.{Some, IsTrue, IfSome};
ghost use Rattle.std.specs.List.{IsDistinct};
ghost use Rattle.tb_model.specs.Names.{same_name};
ghost use Rattle.tb_wait.specs.Names.{IsFirstPlace};
ghost use Rattle.tb_wait.specs.Rows.{AreNamed};

use crate::names::Names;
use crate::tree::Tree;
use tb_model::TaskName;

/// The indexes of a task and of its parent. Mostly the task that took the last step is asked of
/// again, or its parent, or the task that was generated after it; so their indexes are tried before
/// the tree is asked from its root on. An index counts only where the very name is, so any indexes
/// do.
#[derive(Clone, Copy)]
pub struct Near {
    pub own: usize,
    pub above: usize,
}

impl Near {
    /// The index of a name.
    #[inline(always)]
    pub fn find(&self, names: &Names, tree: &Tree, name: &TaskName) -> Option<usize>
        requires { AreNamed names.now.keys tree.now.nodes }
        ensures { IsFirstPlace names.now.keys name.now result }
    {
        if stands_at(names, self.own, name) {
            return Some(self.own);
        }
        self.find_elsewhere(names, tree, name)
    }

    /// The index of a name that isn't at the task's own index.
    // out of line: most calls don't pay for its stack frame
    #[inline(never)]
    fn find_elsewhere(&self, names: &Names, tree: &Tree, name: &TaskName) -> Option<usize>
        requires { AreNamed names.now.keys tree.now.nodes }
        ensures { IsFirstPlace names.now.keys name.now result }
    {
        match self.beside(names, name) {
            Some(at) => Some(at),
            None => tree.place_of(name),
        }
    }

    /// The index of a name, mostly this one.
    #[inline(always)]
    pub fn find_near(
        &self,
        names: &Names,
        tree: &Tree,
        near: usize,
        name: &TaskName,
    ) -> Option<usize>
        requires { AreNamed names.now.keys tree.now.nodes }
        ensures { IsFirstPlace names.now.keys name.now result }
    {
        if stands_at(names, near, name) {
            return Some(near);
        }
        self.find(names, tree, name)
    }

    /// The index of a name, mostly this one, else mostly that of the task, of its parent, or of a
    /// child of one of them: the name's ordinal leads there.
    pub fn find_below(
        &self,
        names: &Names,
        tree: &Tree,
        near: usize,
        name: &TaskName,
    ) -> Option<usize>
        requires { AreNamed names.now.keys tree.now.nodes }
        ensures { IsFirstPlace names.now.keys name.now result }
    {
        if stands_at(names, near, name) {
            return Some(near);
        }
        if stands_at(names, self.own, name) {
            return Some(self.own);
        }
        if let Some(at) = self.beside(names, name) {
            return Some(at);
        }
        match self.by_ordinal(names, tree, name) {
            Some(at) => Some(at),
            None => tree.place_of(name),
        }
    }

    // The index of the name, if it is that of the child of the task, or of its parent, with the
    // name's ordinal.
    fn by_ordinal(&self, names: &Names, tree: &Tree, name: &TaskName) -> Option<usize>
        ensures { IfSome result (λ i. IsFirstPlace names.now.keys name.now (Some i)) }
    {
        let ordinal = name.ordinal().unwrap_or(0);
        for parent in [self.own, self.above] {
            if let Some(at) = tree.child(parent, ordinal) {
                if stands_at(names, at, name) {
                    return Some(at);
                }
            }
        }
        None
    }

    // The index of the name, if it is that of the parent or the one after the task's own.
    #[inline(always)]
    fn beside(&self, names: &Names, name: &TaskName) -> Option<usize>
        ensures here { IfSome result (λ i. IsFirstPlace names.now.keys name.now (Some i)) }
        ensures distinct { IsDistinct same_name names.now.keys }
    {
        if stands_at(names, self.above, name) {
            return Some(self.above);
        }
        let next = self.own.saturating_add(1);
        if stands_at(names, next, name) {
            return Some(next);
        }
        None
    }
}

/// Whether the name is at the index.
#[inline(always)]
pub fn stands_at(names: &Names, at: usize, name: &TaskName) -> bool
    ensures here { IsTrue result → IsFirstPlace names.now.keys name.now (Some at) }
    ensures distinct { IsDistinct same_name names.now.keys }
{
    match names.get(at) {
        Some(key) => *key == *name,
        None => false,
    }
}
