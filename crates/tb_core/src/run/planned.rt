//! The capacity for a planned step, and the step by what is reserved or without it.

ghost use Rattle.std.specs.Prelude.{◌≡◌, ◌<◌, IfOk, IsFalse, IsOk, IsTrue, OnErr, OnOk, length, None, Some};
ghost use Rattle.tb_model.specs.Legal.{MayFollow};
ghost use Rattle.tb_core.specs.Filling.{spare_spawn};
ghost use Rattle.tb_core.specs.Outcomes.{event_of, Fits, IsOpen, Steps};
ghost use Rattle.tb_core.specs.Seen.{history};

use super::Core;
use crate::entry::Entry;
use crate::filling::{copy_event, fill_in, forget, is_spawn_of, planned};
use crate::numbers::number_in;
use std::alloc::AllocError;
use tb_model::{Event, StepId};
use tb_plan::Plan;

impl Core {
    /// The event of the plan, twice, for which all capacity is reserved.
    pub(crate) fn prepare(&mut self, plan: &Plan) -> Result<(Event, Event), AllocError>
        requires fits { Fits self.old.run plan.now }
        requires ready { IsOpen self.old.run plan.now }
        ensures run { self.new.run ≡ self.old.run }
        ensures event { IfOk result (λ p. (p.0 ≡ event_of self.old.run plan.now) × (p.1 ≡ event_of self.old.run plan.now)) }
        ensures reserved { OnOk result (self.new.reserved ≡ Some (event_of self.old.run plan.now)) }
        ensures err { OnErr result (self.new ≡ self.old) }
    {
        let event = planned(&self.tables, plan)?;
        let copy = copy_event(&event)?;
        self.reserve_event(&event)?;
        Ok((event, copy))
    }

    /// Reserves all capacity for an event that may follow the others. What was reserved is given up
    /// last, so not where memory is wanted.
    fn reserve_event(&mut self, event: &Event) -> Result<(), AllocError>
        requires may { MayFollow self.old.run.cells (history self.old.run) event.now }
        requires room { length self.old.run.steps < self.old.run.limit }
        ensures run { self.new.run ≡ self.old.run }
        ensures reserved { OnOk result (self.new.reserved ≡ Some event.now) }
        ensures err { OnErr result (self.new ≡ self.old) }
    {
        let copy = copy_event(event)?;
        self.entries.reserve(1)?;
        let task = number_in(&self.tables, &event.task);
        self.places.reserve(Some(task as usize), &event.action)?;
        self.tables.reserve_apply(event)?;
        self.reserved = Some(copy);
        Ok(())
    }

    /// Executes the step right after a `reserve_step` of the plan that answered Ok: nothing is
    /// asked again, and it takes no memory.
    pub fn step_reserved(&mut self, plan: Plan) -> StepId
        requires fits { Fits self.old.run plan }
        requires open { IsOpen self.old.run plan }
        requires reserved { self.old.reserved ≡ Some (event_of self.old.run plan) }
        ensures { Steps self.old.run plan self.new.run result }
    {
        let to = plan.to();
        let at = self.count();
        let Some(event) = self.reserved.take() else {
            unreachable!();
        };
        let number = number_in(&self.tables, &event.task);
        let Ok(replaced) = self.tables.apply(&event, to) else {
            unreachable!();
        };
        self.places
            .push_reserved(Some(number as usize), &event.action, at);
        let Event { task, action } = event;
        self.entries
            .push_reserved(Entry::new(number, action, replaced));
        StepId {
            task,
            k: plan.config.steps + 1,
        }
    }

    /// Whether the plan's event is reserved, and generates a task.
    pub(crate) fn has_spawn_of(&self, plan: &Plan) -> bool
        requires fits { Fits self.now.run plan.now }
        requires ready { IsOpen self.now.run plan.now }
        ensures yes { IsTrue result → self.now.reserved ≡ Some (event_of self.now.run plan.now) }
        ensures no { IsFalse result → self.now.reserved ≡ Some (event_of self.now.run plan.now) → spare_spawn self.now.reserved ≡ None }
    {
        match &self.reserved {
            Some(event) => is_spawn_of(event, &self.tables, &plan.config.task, &plan.action),
            None => false,
        }
    }

    /// Executes the step of a plan that isn't refused, whatever is reserved.
    pub(crate) fn take(&mut self, plan: Plan) -> Result<StepId, AllocError>
        requires fits { Fits self.old.run plan }
        requires ready { IsOpen self.old.run plan }
        ensures ok { IfOk result (Steps self.old.run plan self.new.run) }
        ensures err { OnErr result (self.new ≡ self.old) }
        ensures room { self.old.reserved ≡ Some (event_of self.old.run plan) → spare_spawn self.old.reserved ≡ None → IsOk result }
    {
        let to = plan.to();
        let at = self.count();
        let Plan {
            instr: _,
            config,
            action,
        } = plan;
        let event = fill_in(&self.tables, config.task, action)?;
        self.entries.reserve(1)?;
        let number = number_in(&self.tables, &event.task);
        self.places.reserve(Some(number as usize), &event.action)?;
        let replaced = self.tables.apply(&event, to)?;
        forget(&mut self.reserved);
        self.places
            .push_reserved(Some(number as usize), &event.action, at);
        let Event { task, action } = event;
        self.entries
            .push_reserved(Entry::new(number, action, replaced));
        Ok(StepId {
            task,
            k: config.steps + 1,
        })
    }
}
