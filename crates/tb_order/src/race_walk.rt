//! The races of a history, one step after another.

ghost use Rattle.std.specs.Prelude.{◌≡◌, ◌<◌, ◌+◌, ◌++◌, IfOk, OnOk, List, length, reverse, take};
ghost use Rattle.std.specs.Option.{option_to_list};
ghost use Rattle.tb_steps.specs.Entries.{Entry};
ghost use Rattle.tb_steps.specs.Scans.{AreLegal, history_of};
ghost use Rattle.tb_races.specs.Racing;
ghost use Rattle.tb_order.specs.Walks.{HasRacesTo};

use std::alloc::{AllocError, Global};
use tb_core::History;
use tb_races::Race;
use tb_stream::Races;

/// A walk along the steps of a history, the oldest first, which says of each with which it races.
#[derive(Drop)]
pub struct RaceWalk {
    races: Races,
}

impl RaceWalk {
    /// In front of the first step.
    pub fn new(alloc: Global) -> Result<RaceWalk, AllocError>
        ensures { IfOk result (λ walk. (entries : List Entry) → HasRacesTo entries 0 walk) }
    {
        Ok(RaceWalk {
            races: Races::new(alloc)?,
        })
    }

    /// The race of the step at this index, in front of which the walk is, if it has one. After an
    /// error nothing is known of the walk.
    pub fn next(&mut self, entries: &History<'_>, at: usize) -> Result<Option<Race>, AllocError>
        requires legal { AreLegal entries.now }
        requires at { at < length entries.now }
        requires walk { HasRacesTo entries.now at self.old }
        ensures race { IfOk result (λ race.
            reverse (Racing.races (history_of (take (at + 1) entries.now)))
            ≡ reverse (Racing.races (history_of (take at entries.now))) ++ option_to_list race) }
        ensures walk { OnOk result (HasRacesTo entries.now (at + 1) self.new) }
    {
        self.races.push_action(entries.task(at), entries.action(at))
    }
}
