//! Steps of tasks that nothing blocks.

ghost use Rattle.std.specs.Prelude.{◌≡◌, IfOk, OnErr, OnOk};
ghost use Rattle.tb_model.specs.Legal.{MayFollow};
ghost use Rattle.tb_core.specs.Filling.{IsWhole};
ghost use Rattle.tb_core.specs.Outcomes.{event_for, MayTake, Takes};
ghost use Rattle.tb_core.specs.Seen.{history};

use super::Core;
use crate::filling::{copy_event, event_for, fill_in, is_whole};
use std::alloc::AllocError;
use tb_model::{Action, Event, TaskName};

impl Core {
    /// Executes an action of a task that nothing blocks: nothing is asked again. The action leaves
    /// the task at the line `to`. The event is the newest then.
    #[inline(always)]
    pub fn step_clear(&mut self, task: &TaskName, action: Action, to: u32) -> Result<(), AllocError>
        requires { MayTake self.old.run task.now action }
        ensures taken { OnOk result (Takes self.old.run task.now action to self.new.run
            (event_for self.old.run task.now action)) }
        ensures err { OnErr result (self.new ≡ self.old) }
    {
        let task = task.clone()?;
        if is_whole(&action) {
            self.step_whole(task, action, to)
        } else {
            self.step_filled(task, action, to)
        }
    }

    /// Executes an action of which nothing is filled in, of a task that nothing blocks: the action
    /// is the event's as it is.
    #[inline(always)]
    fn step_whole(&mut self, task: TaskName, action: Action, to: u32) -> Result<(), AllocError>
        requires whole { IsWhole action }
        requires may { MayTake self.old.run task action }
        ensures taken { OnOk result (Takes self.old.run task action to self.new.run
            (event_for self.old.run task action)) }
        ensures err { OnErr result (self.new ≡ self.old) }
    {
        // for the proof: what the tables retain
        let _ = &self.tables;
        self.append(Event { task, action }, to)?;
        Ok(())
    }

    /// Executes an action of a task that nothing blocks, and fills in what the tables say: the
    /// value of a load, or the name of a child.
    // out of line: a step of which nothing is filled in doesn't pay for its stack frame
    #[inline(never)]
    fn step_filled(&mut self, task: TaskName, action: Action, to: u32) -> Result<(), AllocError>
        requires { MayTake self.old.run task action }
        ensures taken { OnOk result (Takes self.old.run task action to self.new.run
            (event_for self.old.run task action)) }
        ensures err { OnErr result (self.new ≡ self.old) }
    {
        let event = fill_in(&self.tables, task, action)?;
        self.append(event, to)?;
        Ok(())
    }

    /// Executes an action of a task that nothing blocks, and returns a copy of its event. The
    /// memory for the copy is taken before the step.
    pub fn step_copied(
        &mut self,
        task: &TaskName,
        action: Action,
        to: u32,
    ) -> Result<Event, AllocError>
        requires { MayTake self.old.run task.now action }
        ensures taken { IfOk result (Takes self.old.run task.now action to self.new.run) }
        ensures err { OnErr result (self.new ≡ self.old) }
    {
        let event = self.event_of_clear(task, action)?;
        let copy = copy_event(&event)?;
        self.append(event, to)?;
        Ok(copy)
    }

    /// The event of an action that nothing blocks.
    #[inline(always)]
    fn event_of_clear(&self, task: &TaskName, action: Action) -> Result<Event, AllocError>
        requires { MayTake self.now.run task.now action }
        ensures is { IfOk result (λ v. v ≡ event_for self.now.run task.now action) }
        ensures may { IfOk result (MayFollow self.now.run.cells (history self.now.run)) }
    {
        let event = event_for(&self.tables, task, action)?;
        Ok(event)
    }
}
