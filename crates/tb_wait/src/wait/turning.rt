//! Where a task is among all that were ever generated.

ghost use Rattle.std.specs.Prelude.{◌≡◌, ◌≤◌, length, slice_get};
ghost use Rattle.std.specs.List.{IsDistinct};
ghost use Rattle.std.specs.Map.{keys_of};
ghost use Rattle.std.specs.Option.{option_copied};
ghost use Rattle.tb_model.specs.Names.{same_name};
ghost use Rattle.tb_wait.specs.Kin.{place};

use super::Wait;
use crate::near::{Near, stands_at};
use tb_model::TaskName;

impl Wait {
    /// Turns to the task, which is asked of next, and is looked for at this index first, which may
    /// be any: it, its parent and the one that was generated after it are looked for at their own
    /// indexes from now on. Nothing that the table says changes. Returns the task's index.
    #[inline(always)]
    pub fn turn_to(&mut self, near: usize, task: &TaskName) -> Option<usize>
        ensures same { self.new ≡ self.old }
        ensures place { result ≡ place self.old.tasks task.now }
    {
        if near == self.near.own && stands_at(&self.names, near, task) {
            return Some(near);
        }
        self.turn_elsewhere(near, task)
    }

    /// Turns to the task where the table was turned to another, and returns the task's index.
    // out of line: most calls don't pay for its stack frame
    #[inline(never)]
    fn turn_elsewhere(&mut self, near: usize, task: &TaskName) -> Option<usize>
        ensures same { self.new ≡ self.old }
        ensures place { result ≡ place self.old.tasks task.now }
    {
        let own = self.near.find_below(&self.names, &self.tree, near, task)?;
        let above = self.tree.owner(own);
        self.near = Near { own, above };
        Some(own)
    }

    /// The task's index among all that were ever generated, which it retains for good. It is looked
    /// for at this index first, which may be any.
    #[inline(always)]
    pub fn place(&self, near: usize, task: &TaskName) -> Option<usize>
        ensures { result ≡ place self.now.tasks task.now }
    {
        self.near.find_near(&self.names, &self.tree, near, task)
    }

    /// The task's index, in a walk over tasks: `near` hands on the index of the last one, which
    /// mostly is this one again.
    #[inline(always)]
    pub fn walk_place(&self, near: &mut usize, task: &TaskName) -> Option<usize>
        ensures { result ≡ place self.now.tasks task.now }
    {
        if stands_at(&self.names, *near, task) {
            return Some(*near);
        }
        self.walk_elsewhere(near, task)
    }

    /// The index of a task that isn't the last one of the walk: mostly it is next to that, or is
    /// its parent, its child or its sibling.
    // out of line: most calls don't pay for its stack frame
    #[inline(never)]
    fn walk_elsewhere(&self, near: &mut usize, task: &TaskName) -> Option<usize>
        ensures { result ≡ place self.now.tasks task.now }
    {
        let mut last = self.near;
        if *near < self.rows.len() {
            let own = *near;
            let above = self.tree.owner(own);
            last = Near { own, above };
        }
        let found = last.find_below(&self.names, &self.tree, last.own, task);
        *near = found.unwrap_or(0);
        found
    }

    /// The name at this index, whether its task is there or not. An index fits in 32 bits.
    #[inline(always)]
    pub fn name(&self, at: usize) -> Option<&TaskName>
        ensures name { option_copied result ≡ slice_get (keys_of self.now.tasks) at }
        ensures distinct { IsDistinct same_name (keys_of self.now.tasks) }
        ensures bound { length self.now.tasks ≤ 4294967295 }
    {
        self.names.get(at)
    }
}
