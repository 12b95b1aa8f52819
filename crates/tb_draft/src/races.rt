//! Races, as text.

ghost use Rattle.std.specs.Prelude.{◌≡◌, ◌++◌, OnOk, codes};
ghost use Rattle.tb_draft.specs.Races.{apart_text, conflict_text, race_line};
ghost use Rattle.tb_model.specs.Spelling.{step_id_text};

use crate::draft::Draft;
use std::alloc::AllocError;
use tb_model::StepId;
use tb_races::{Conflict, Race};

/// Appends that exclusion forbids two steps to be under way at once, where it does.
fn push_apart(text: &mut Draft, apart: bool) -> Result<(), AllocError>
    ensures { OnOk result (text.new ≡ text.old ++ apart_text apart) }
{
    if apart {
        text.push_str(" apart")
    } else {
        Ok(())
    }
}

/// Appends what the two race over, and whether exclusion separates them.
fn push_subject(text: &mut Draft, race: &Race) -> Result<(), AllocError>
    ensures { OnOk result (text.new ≡ text.old
        ++ (conflict_text race.now.conflict ++ apart_text race.now.apart)) }
{
    text.push_conflict(race.conflict)?;
    push_apart(text, race.apart)
}

impl Draft {
    /// Appends what two steps share. Where memory runs out a part of it may stay.
    pub fn push_conflict(&mut self, conflict: Conflict) -> Result<(), AllocError>
        ensures { OnOk result (self.new ≡ self.old ++ conflict_text conflict) }
    {
        match conflict {
            Conflict::Cell { cell } => {
                self.push_str("cell ")?;
                self.push_number(cell)
            }
            Conflict::Print => self.push_str("print"),
        }
    }

    /// Appends the names of two steps. Where memory runs out a part of them may stay.
    pub fn push_pair(&mut self, first: &StepId, second: &StepId) -> Result<(), AllocError>
        ensures { OnOk result (self.new ≡ self.old
            ++ (step_id_text first.now ++ codes " " ++ step_id_text second.now)) }
    {
        self.push_step(&first.task, first.k)?;
        self.push(' ')?;
        self.push_step(&second.task, second.k)
    }

    /// Appends the line of a race, as `0.1#2 0.2#2 cell 7 apart`. Where memory runs out a part of
    /// it may stay.
    pub fn push_race(&mut self, race: &Race) -> Result<(), AllocError>
        ensures { OnOk result (self.new ≡ self.old ++ race_line race.now) }
    {
        self.push_pair(&race.earlier, &race.later)?;
        self.push(' ')?;
        push_subject(self, race)?;
        self.push('\n')
    }
}
