//! What a task's state has besides its situation: whether it faulted, which of its groups are open,
//! and who of its children and of their members isn't done.

ghost use Rattle.std.specs.Prelude.{◌≡◌, ◌↔◌, IfOk, IsTrue};
ghost use Rattle.tb_model.specs.Facts.{own};
ghost use Rattle.tb_model.specs.State.{Faulted, status_of, open_groups_of, is_unended_child, is_unended_member_of};
ghost use Rattle.tb_core.specs.Listed.{AreAll};
ghost use Rattle.tb_core.specs.Seen.{history};
ghost use Rattle.tb_core.specs.Groups.{is_unended_among};

use super::Core;
use crate::groups::{is_among, newest_is_fault, open_groups};
use std::alloc::AllocError;
use tb_model::{StepId, TaskName};

impl Core {
    /// Whether the task is over by a fault. One that has ended and hasn't faulted is over by an end.
    pub fn has_faulted(&self, task: &TaskName) -> bool
        ensures { IsTrue result ↔ (status_of (own task.now (history self.now.run)) ≡ Faulted) }
    {
        newest_is_fault(&self.legal_entries(), task)
    }

    /// The task's open groups, each by the step that opened it, from the innermost to the outermost.
    pub fn open_groups(&self, task: &TaskName) -> Result<Vec<StepId>, AllocError>
        ensures { IfOk result (λ ids. ids.items ≡ open_groups_of task.now (history self.now.run)) }
    {
        open_groups(self.alloc, &self.legal_entries(), task)
    }

    /// The task's unended children, in the order of their names.
    pub fn unended_children(&self, task: &TaskName) -> Result<Vec<TaskName>, AllocError>
        ensures { IfOk result (λ us. AreAll (λ u. IsTrue (is_unended_child (history self.now.run) task.now u)) us.items) }
    {
        self.unended_among(task, None)
    }

    /// The unended members of the task's open group that the step opened, in the order of their
    /// names: the children generated since, and all their descendants.
    pub fn unended_members(&self, group: &StepId) -> Result<Vec<TaskName>, AllocError>
        ensures { IfOk result (λ us. AreAll (λ u. IsTrue (is_unended_member_of (history self.now.run) group.now.task group.now.k u)) us.items) }
    {
        self.unended_among(&group.task, Some(group.k))
    }

    /// The unended tasks that are children of the task, or members of its group of this step, in the
    /// order of their names.
    fn unended_among(
        &self,
        task: &TaskName,
        group: Option<u32>,
    ) -> Result<Vec<TaskName>, AllocError>
        ensures { IfOk result (λ us. AreAll (λ u. IsTrue (is_unended_among (history self.now.run) task.now group u)) us.items) }
    {
        let mut found = Vec::new(self.alloc);
        let mut after: Option<&TaskName> = None;
        'tasks: while let Some(name) = self.next_unended(after) {
            if is_among(&self.legal_entries(), task, group, name) {
                found.push(name.clone()?)?;
            }
            after = Some(name);
        }
        Ok(found)
    }
}
