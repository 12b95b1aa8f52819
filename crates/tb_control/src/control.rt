//! What a run has besides the journal: claims, breakpoints and mode.

ghost use Rattle.std.specs.Prelude.{◌≡◌, [], ◌∷◌};
ghost use Rattle.tb_control.specs.Controls.{behind_step, behind_removal};

use crate::breakpoints::Breakpoints;
use crate::claims::Claims;
use crate::mode::Mode;
use tb_core::Removed;
use tb_model::{Action, TaskName};

/// Who is at which task, where the run pauses, and whether it has.
#[derive(Drop)]
pub struct Control {
    pub claims: Claims,
    pub breakpoints: Breakpoints,
    pub mode: Mode,
}

impl Control {
    /// The task, which was at this line, executed a step with this action: the claim on the task
    /// ends, and the mode counts the step.
    #[inline(always)]
    pub fn step_taken(&mut self, line: u32, task: &TaskName, action: &Action)
        ensures { self.new ≡ behind_step line (record { task = task.now; action = action.now }) self.old }
    {
        self.claims.withdraw(task);
        self.mode = self.mode.behind(self.breakpoints.met(line, task, action));
    }

    /// A step was removed: the claims on its task, and on what it generated, are withdrawn.
    pub fn step_removed(&mut self, removed: &Removed)
        ensures { self.new ≡ behind_removal (removed.now ∷ []) self.old }
    {
        self.claims.withdraw_one(removed);
    }

    /// Steps were removed: the claims on their tasks, and on what they generated, are withdrawn.
    pub fn steps_removed(&mut self, removed: &[Removed])
        ensures { self.new ≡ behind_removal removed.now self.old }
    {
        self.claims.withdraw_removed(removed);
    }
}
