//! What a task's state has besides its situation.

ghost use Rattle.std.specs.Prelude.{◌≡◌, ◌↔◌, IfOk, IsTrue, Some, None, if◌then◌else◌};
ghost use Rattle.tb_model.specs.Facts.{is_spawned, own};
ghost use Rattle.tb_model.specs.Program.{called};
ghost use Rattle.tb_model.specs.State.{Faulted, status_of, open_groups_of, is_unended_child, is_unended_member_of};
ghost use Rattle.tb_core.specs.Listed.{AreAll};
ghost use Rattle.tb_live.specs.Session.{history};

use super::Live;
use std::alloc::AllocError;
use tb_model::{StepId, TaskName};

impl Live {
    /// The line that begins the body of a task that is there.
    pub fn body(&self, task: &TaskName) -> Option<u32>
        ensures { result ≡ (if is_spawned (history self.now.session) task.now
            then Some (called self.now.session.program task.now (history self.now.session)).line else None) }
    {
        self.core.body(task)
    }

    /// Whether the task is over by a fault. One that has ended and hasn't faulted is over by an end.
    pub fn has_faulted(&self, task: &TaskName) -> bool
        ensures { IsTrue result ↔ (status_of (own task.now (history self.now.session)) ≡ Faulted) }
    {
        self.core.has_faulted(task)
    }

    /// The task's open groups, each by the step that opened it, from the innermost to the outermost.
    pub fn open_groups(&self, task: &TaskName) -> Result<Vec<StepId>, AllocError>
        ensures { IfOk result (λ ids. ids.items ≡ open_groups_of task.now (history self.now.session)) }
    {
        self.core.open_groups(task)
    }

    /// The task's unended children, in the order of their names.
    pub fn unended_children(&self, task: &TaskName) -> Result<Vec<TaskName>, AllocError>
        ensures { IfOk result (λ us. AreAll (λ u. IsTrue (is_unended_child (history self.now.session) task.now u)) us.items) }
    {
        self.core.unended_children(task)
    }

    /// The unended members of the task's open group that the step opened, in the order of their
    /// names: the children generated since, and all their descendants.
    pub fn unended_members(&self, group: &StepId) -> Result<Vec<TaskName>, AllocError>
        ensures { IfOk result (λ us. AreAll (λ u. IsTrue (is_unended_member_of (history self.now.session) group.now.task group.now.k u)) us.items) }
    {
        self.core.unended_members(group)
    }
}
