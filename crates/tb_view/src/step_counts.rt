//! Ordinals of steps, and their lines, along a history.

ghost use Rattle.std.specs.Prelude.{◌≡◌, ◌<◌, ◌++◌, [], IfOk, OnOk, suc};
ghost use Rattle.tb_view.specs.Lines.{event_line};
ghost use Rattle.tb_view.specs.Steps.{count_of, IsCounted};

use crate::counting::count_step;
use crate::step_line::append_line;
use indexmap::IndexMap;
use std::alloc::{AllocError, Global};
use std::marker::Model;
use tb_draft::Draft;
use tb_model::{Action, TaskName};
use tb_read::Program;

/// How many steps each task has executed so far, along a history: so each line can write its step's
/// ordinal.
#[derive(Drop)]
pub struct StepCounts {
    counts: IndexMap<TaskName, u32>,
    // the index of the count that changed last
    near: usize,
}

impl Model for StepCounts {
    ghost use Rattle.tb_view.specs.Steps.{Counts};

    ghost Value = { Counts };

    ghost view = { λ c. c.counts.entries };
}

impl StepCounts {
    /// The counts where no task has executed a step. Takes no memory.
    pub fn none(alloc: Global) -> StepCounts
        ensures { result ≡ [] }
    {
        StepCounts {
            counts: IndexMap::new(alloc),
            near: 0,
        }
    }

    /// Counts one step more of the task, and returns how many that are.
    #[inline(always)]
    pub(crate) fn count(&mut self, task: &TaskName) -> Result<u32, AllocError>
        requires few { count_of self.old task.now < 4294967295 }
        ensures number { IfOk result (λ k. k ≡ suc (count_of self.old task.now)) }
        ensures counts { OnOk result (IsCounted self.old task.now self.new) }
    {
        count_step(&mut self.counts, &mut self.near, task)
    }

    /// Appends the line of the task's next step, which has this action, and counts it. Where memory
    /// runs out a part of the line may stay, and the step may be counted.
    #[inline(always)]
    pub fn append_next(
        &mut self,
        text: &mut Draft,
        program: &Program,
        task: &TaskName,
        action: &Action,
    ) -> Result<(), AllocError>
        requires { count_of self.old task.now < 4294967295 }
        ensures text { OnOk result (text.new ≡ text.old ++ event_line program.now
            (record { task = task.now; k = suc (count_of self.old task.now) })
            (record { task = task.now; action = action.now })) }
        ensures counts { OnOk result (IsCounted self.old task.now self.new) }
    {
        let k = self.count(task)?;
        append_line(text, program, task, k, action)
    }
}
