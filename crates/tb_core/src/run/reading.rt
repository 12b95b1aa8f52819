//! What a core says of its tasks, of the cells, of the output and of the indexes of steps.

ghost use Rattle.std.specs.Prelude.{◌≡◌, IfOk, Some, None, length, reverse, if◌then◌else◌};
ghost use Rattle.std.specs.Option.{option_copied};
ghost use Rattle.tb_places.specs.Where.{places_where};
ghost use Rattle.tb_model.specs.Facts.{is_of, is_print, is_spawned, touches, own, items_of, before, apart};
ghost use Rattle.tb_model.specs.Legal.{spawn_count};
ghost use Rattle.tb_model.specs.LeastNames.{IsLeastName};
ghost use Rattle.tb_model.specs.State.{called_by, open_groups, printed, spawn_of};
ghost use Rattle.tb_undo.specs.Obstacles.{sibling};
ghost use Rattle.tb_undo.specs.Readings.{IsUnendedBehind};
ghost use Rattle.tb_undo.specs.State.{AreLast};
ghost use Rattle.tb_core.specs.Seen.{history};
ghost use Rattle.tb_core.specs.Situation.{config_of};

use super::Core;
use crate::elsewhere::Elsewhere;
use std::alloc::AllocError;
use tb_model::{Item, TaskName};

impl Core {
    /// The cells' values, in order.
    pub fn cells(&self) -> &[i64]
        ensures { AreLast self.now.run.cells (history self.now.run) result.now }
    {
        self.tables.cells()
    }

    /// The printed values, in order.
    pub fn output(&self) -> &[i64]
        ensures { result.now ≡ reverse (printed (history self.now.run)) }
    {
        self.tables.output()
    }

    /// The least unended task after this one by the order of names, or of all.
    pub fn next_unended(&self, after: Option<&TaskName>) -> Option<&TaskName>
        ensures { IsLeastName (IsUnendedBehind (history self.now.run) (option_copied after.entry)) (option_copied result) }
    {
        self.tables.next_unended(after)
    }

    /// The least unended task after this one by the order of names, or of all, in a walk: `walk` is
    /// handed on, at first any, and `near` becomes where `walk_standing` looks for it first.
    pub fn walk_unended(
        &self,
        walk: &mut usize,
        near: &mut Option<usize>,
        after: Option<&TaskName>,
    ) -> Option<&TaskName>
        ensures { IsLeastName (IsUnendedBehind (history self.now.run) (option_copied after.entry)) (option_copied result) }
    {
        self.tables.walk_unended(walk, near, after)
    }

    /// How many groups of the task are open.
    pub fn groups(&self, task: &TaskName) -> usize
        ensures { result ≡ length (open_groups (own task.now (history self.now.run))) }
    {
        self.tables.groups(task)
    }

    /// The line that begins the body of a task that is there.
    pub fn body(&self, task: &TaskName) -> Option<u32>
        ensures { result ≡ (if is_spawned (history self.now.run) task.now then Some (called_by self.now.run.root_line (spawn_of task.now (history self.now.run))).line else None) }
    {
        self.tables.body(task)
    }

    /// How many children a task that is there has generated.
    pub fn children(&self, task: &TaskName) -> Option<u32>
        ensures { result ≡ (if is_spawned (history self.now.run) task.now then Some (spawn_count (own task.now (history self.now.run))) else None) }
    {
        self.tables.children(task)
    }

    /// The situation of a task that is there, as a refusal says it.
    pub fn elsewhere(&self, task: &TaskName) -> Result<Option<Elsewhere>, AllocError>
        ensures { IfOk result (λ o. o ≡ (if is_spawned (history self.now.run) task.now then Some (config_of self.now.run task.now) else None)) }
    {
        match self.config(task)? {
            Some(config) => Ok(Some(Elsewhere::new(self.alloc, config)?)),
            None => Ok(None),
        }
    }

    /// The depend items of the task.
    pub fn items(&self, task: &TaskName) -> &[Item]
        ensures { result.now ≡ items_of task.now (history self.now.run) }
    {
        self.tables.items(task)
    }

    /// Whether the task depends on its sibling with this ordinal.
    pub fn is_before(&self, number: u32, task: &TaskName) -> bool
        ensures { result ≡ before (history self.now.run) (sibling task.now number) task.now }
    {
        self.tables.is_before(number, task)
    }

    /// Whether the task and its sibling with this ordinal exclude each other.
    pub fn is_apart(&self, number: u32, task: &TaskName) -> bool
        ensures { result ≡ apart (history self.now.run) (sibling task.now number) task.now }
    {
        self.tables.is_apart(number, task)
    }

    /// The indexes of the task's steps, from 0 and rising.
    pub fn events_of(&self, task: &TaskName) -> &[u32]
        ensures { result.now ≡ places_where (is_of task.now) (reverse (history self.now.run)) }
    {
        self.places.events_of(self.tables.place(task))
    }

    /// The indexes of the steps that load from the cell or store to it, rising.
    pub fn touches(&self, cell: u32) -> &[u32]
        ensures { result.now ≡ places_where (λ v. touches cell v.action) (reverse (history self.now.run)) }
    {
        self.places.touches(cell)
    }

    /// The indexes of the steps that print, rising.
    pub fn prints(&self) -> &[u32]
        ensures { result.now ≡ places_where (λ v. is_print v.action) (reverse (history self.now.run)) }
    {
        self.places.prints()
    }
}
