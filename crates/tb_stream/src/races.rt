//! The races of a run.

ghost use Rattle.std.specs.Prelude.{◌≡◌, ◌∷◌, ◌<◌, [], IfOk, IsFalse, OnOk};
ghost use Rattle.tb_model.specs.Facts.{History};
ghost use Rattle.tb_model.specs.Legal.{Cells, Legal};
ghost use Rattle.tb_races.specs.Racing;
ghost use Rattle.tb_stream.specs.Halves.{AreRaces, event_of};

use crate::halves::Halves;
use crate::racing::race_of;
use std::alloc::{AllocError, Global};
use tb_clocks::{Ids, Tasks};
use tb_model::{Action, Event, TaskName};
use tb_races::Race;

/// As many events as a run can have.
const MOST: usize = 4_294_967_295;

/// Whether no more is counted, after so many events and so many steps of a task.
fn is_full(events: usize, steps: u32) -> bool
    ensures { IsFalse result → (events < 4294967295) × (steps < 4294967295) }
{
    events >= MOST || steps == u32::MAX
}

/// What is stored of a run to say with which earlier steps the next one races. Memory goes by
/// tasks, lanes and cells, not by events.
#[derive(Drop)]
pub struct Races {
    alloc: Global,
    ids: Ids,
    /// The id of the task of the newest event, and at first the root's.
    newest: usize,
    tasks: Tasks,
    /// How many events there are.
    count: usize,
    halves: Halves,
}

impl Races {
    /// Of no events.
    pub fn new(alloc: Global) -> Result<Races, AllocError>
        ensures { IfOk result (λ races. (cells : Cells) → AreRaces cells [] races) }
    {
        Ok(Races {
            alloc,
            ids: Ids::new(alloc)?,
            newest: 0,
            tasks: Tasks::new(alloc)?,
            count: 0,
            halves: Halves::new(alloc)?,
        })
    }

    /// Adds the next event, and returns the race that is named for it: with the newest event from
    /// which exclusion doesn't separate it, else with the newest. After an error nothing is known
    /// of the run.
    pub fn push(&mut self, event: &Event) -> Result<Option<Race>, AllocError>
        ensures race { IfOk result (λ race. (cells : Cells) (H : History)
            → AreRaces cells H self.old
            → Legal cells (event.now ∷ H) → race ≡ Racing.race_of H event.now) }
        ensures more { OnOk result ((cells : Cells) (H : History)
            → AreRaces cells H self.old
            → Legal cells (event.now ∷ H) → AreRaces cells (event.now ∷ H) self.new) }
    {
        self.push_action(&event.task, &event.action)
    }

    /// Adds the next event, this action of the task, as `push` does.
    pub fn push_action(
        &mut self,
        name: &TaskName,
        action: &Action,
    ) -> Result<Option<Race>, AllocError>
        ensures race { IfOk result (λ race. (cells : Cells) (H : History)
            → AreRaces cells H self.old → Legal cells (event_of name.now action.now ∷ H)
            → race ≡ Racing.race_of H (event_of name.now action.now)) }
        ensures more { OnOk result ((cells : Cells) (H : History)
            → AreRaces cells H self.old → Legal cells (event_of name.now action.now ∷ H)
            → AreRaces cells (event_of name.now action.now ∷ H) self.new) }
    {
        let Some(task) = self.ids.id(self.newest, name) else {
            return Err(AllocError);
        };
        let at = self.count;
        let steps = self.tasks.steps(task);
        if is_full(at, steps) {
            return Err(AllocError);
        }
        let k = steps + 1;
        let (strict, loose) = self.halves.take(&self.tasks, action, at, task, k)?;
        let race = race_of(&self.ids, name, action, k, strict, loose)?;
        self.tasks.push(self.alloc, task, action)?;
        self.ids.push(action)?;
        self.count = at + 1;
        self.newest = task;
        Ok(race)
    }
}
