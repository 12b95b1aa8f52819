//! Which steps race.

ghost use Rattle.std.specs.Prelude.{◌≡◌, ◌≤◌, IfOk, length, reverse};
ghost use Rattle.std.specs.Option.{option_to_list};
ghost use Rattle.tb_steps.specs.Scans.{AreLegal, history_of};
ghost use Rattle.tb_races.specs.Racing;

use crate::race_walk::RaceWalk;
use std::alloc::{AllocError, Global};
use tb_core::History;
use tb_races::Race;

/// The race of each stored step that has one.
pub fn races_among(alloc: Global, entries: &History<'_>) -> Result<Vec<Race>, AllocError>
    requires { AreLegal entries.now }
    ensures { IfOk result (λ races.
        races.items ≡ reverse (Racing.races (history_of entries.now))) }
{
    let mut found = Vec::new(alloc);
    let mut walk = RaceWalk::new(alloc)?;
    for at in 0..entries.len() {
        if let Some(race) = walk.next(entries, at)? {
            found.push(race)?;
        }
    }
    Ok(found)
}

fn count_of(race: &Option<Race>) -> usize
    ensures count { result ≡ length (option_to_list race.now) }
    ensures one { result ≤ 1 }
{
    match race {
        Some(_) => 1,
        None => 0,
    }
}

/// How many stored steps race with earlier ones.
pub fn count_races(alloc: Global, entries: &History<'_>) -> Result<usize, AllocError>
    requires { AreLegal entries.now }
    ensures { IfOk result (λ count. count ≡ length (Racing.races (history_of entries.now))) }
{
    let mut count = 0_usize;
    let mut walk = RaceWalk::new(alloc)?;
    for at in 0..entries.len() {
        let race = walk.next(entries, at)?;
        count += count_of(&race);
    }
    Ok(count)
}
