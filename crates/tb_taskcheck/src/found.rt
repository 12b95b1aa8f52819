//! The races of a run, found event by event.

ghost use Rattle.std.specs.Prelude.{◌≡◌, ◌+◌, ◌++◌, ◌∷◌, [], IfOk, OnOk, if◌then◌else◌, true};
ghost use Rattle.tb_draft.specs.Races.{race_line};
ghost use Rattle.tb_model.specs.Facts.{History};
ghost use Rattle.tb_taskcheck.specs.Races.{IsFound};
ghost use Rattle.tb_verdict.specs.Texts.{with_event};

use std::alloc::{AllocError, Global};
use tb_draft::Draft;
use tb_model::Event;
use tb_races::Race;
use tb_stream::Races;

/// The races of a run so far, as lines, and what gives those of the events to come. Memory goes by
/// the tasks, the cells and the races, and not by the events.
#[derive(Drop)]
pub struct Found {
    pub races: Races,
    /// A line a race, by the order of their later steps.
    pub lines: Draft,
    pub count: u32,
    /// Whether one of the races is between steps that exclusion doesn't separate.
    pub is_unordered: bool,
}

impl Found {
    /// Of no events.
    pub fn new(alloc: Global) -> Result<Found, AllocError>
        ensures { IfOk result (IsFound []) }
    {
        Ok(Found {
            races: Races::new(alloc)?,
            lines: Draft::new(alloc),
            count: 0,
            is_unordered: false,
        })
    }

    /// Lists one race more.
    fn list(&mut self, race: &Race) -> Result<(), AllocError>
        ensures races { OnOk result (self.new.races ≡ self.old.races) }
        ensures lines { OnOk result (self.new.lines ≡ self.old.lines ++ race_line race.now) }
        ensures count { OnOk result (self.new.count ≡ self.old.count + 1) }
        ensures unordered { OnOk result (self.new.is_unordered
            ≡ (if race.now.apart then self.old.is_unordered else true)) }
    {
        if self.count == u32::MAX {
            return Err(AllocError);
        }
        self.lines.push_race(race)?;
        self.count += 1;
        if !race.apart {
            self.is_unordered = true;
        }
        Ok(())
    }

    /// Adds the next event.
    fn push(&mut self, event: &Event) -> Result<(), AllocError>
        ensures { OnOk result ((H : History) → IsFound H self.old
            → IsFound (event.now ∷ H) self.new) }
    {
        match self.races.push(event)? {
            Some(race) => self.list(&race),
            None => Ok(()),
        }
    }

    /// Adds the next event, if there is one. After an error nothing is known of what is stored.
    pub fn add_event(&mut self, event: &Option<Event>) -> Result<(), AllocError>
        ensures { OnOk result ((H : History) → IsFound H self.old
            → IsFound (with_event event.now H) self.new) }
    {
        match event {
            Some(event) => self.push(event),
            None => Ok(()),
        }
    }
}
