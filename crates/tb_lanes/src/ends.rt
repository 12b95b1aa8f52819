//! The ends of a history, of which a step that waits asks.

ghost use Rattle.std.specs.Prelude.{◌≡◌, ◌<◌, ◌≤◌, ◌+◌, ℕ, List, [], length, IsTrue, OnOk};
ghost use Rattle.tb_steps.specs.Entries.{Entry};
ghost use Rattle.tb_races.specs.Orders.{Order};
ghost use Rattle.tb_lanes.specs.Clocks as is;
ghost use Rattle.tb_lanes.specs.Clocks.{AddsEnd, AreClocks, AreTasks, AreTied, IsShaped, end_at};
ghost use Rattle.tb_lanes.specs.Rows.{IsFit};

use crate::clocks::{Clocks, reaches};
use crate::tasks::Tasks;
use std::alloc::{AllocError, Global};

/// Ends, the oldest first, with what lets a walk back along them pass over many at once.
#[derive(Drop)]
pub struct Ends {
    /// Where they are.
    pub places: Vec<usize>,
    /// For each the first of those right in front of it after all of which it comes: their number.
    pub skips: Vec<usize>,
}

/// No ends yet.
pub fn no_ends(alloc: Global) -> Ends
    ensures places { result.places.items ≡ [] }
    ensures skips { result.skips.items ≡ [] }
{
    Ends {
        places: Vec::new(alloc),
        skips: Vec::new(alloc),
    }
}

/// Adds the end at this index.
pub fn note_end(
    tasks: &Tasks,
    clocks: &Clocks,
    ends: &mut Ends,
    at: usize,
) -> Result<(), AllocError>
    requires shaped { IsShaped tasks.now }
    requires listed { length clocks.now.of.items ≤ length tasks.now.numbers.items }
    requires laned { length clocks.now.lanes.items ≡ length clocks.now.of.items }
    requires at { at < length clocks.now.of.items }
    requires low { (i : ℕ) → i < length ends.old.places.items → end_at ends.old i ≤ at }
    requires marked { length ends.old.skips.items ≡ length ends.old.places.items }
    requires skips { (i : ℕ) → i < length ends.old.places.items → is.skip_at ends.old i ≤ i }
    ensures fit { OnOk result (IsFit at ends.new) }
    ensures more { OnOk result (AddsEnd tasks.now clocks.now at ends.old ends.new) }
{
    let from = first_skipped(tasks, clocks, ends, at);
    ends.places.push(at)?;
    ends.skips.push(from)?;
    Ok(())
}

/// The index of the first end from which on the step at this index comes after all.
fn first_skipped(tasks: &Tasks, clocks: &Clocks, ends: &Ends, at: usize) -> usize
    requires shaped { IsShaped tasks.now }
    requires listed { length clocks.now.of.items ≤ length tasks.now.numbers.items }
    requires laned { length clocks.now.lanes.items ≡ length clocks.now.of.items }
    requires at { at < length clocks.now.of.items }
    requires low { (i : ℕ) → i < length ends.now.places.items → end_at ends.now i ≤ at }
    requires marked { length ends.now.skips.items ≡ length ends.now.places.items }
    requires skips { (i : ℕ) → i < length ends.now.places.items → is.skip_at ends.now i ≤ i }
    ensures within { result ≤ length ends.now.places.items }
    ensures reached { (o : Order) (entries : List Entry) → AreTasks entries tasks.now
        → AreClocks o entries tasks.now (at + 1) clocks.now → AreTied o entries ends.now
        → (j : ℕ) → result ≤ j → j < length ends.now.places.items
        → IsTrue (is.reaches o entries at (end_at ends.now j)) }
{
    let mut from = ends.places.len();
    'back: while from > 0 && reaches(tasks, clocks, at, ends.places[from - 1]) {
        from = ends.skips[from - 1];
    }
    from
}
