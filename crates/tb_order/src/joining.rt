//! A step that comes before one that waits is joined to it.

ghost use Rattle.std.specs.Prelude.{◌≡◌, ◌<◌, ◌||◌, ℕ, Bool, List, length, IfOk, IsTrue, OnOk};
ghost use Rattle.tb_steps.specs.Entries.{Entry};
ghost use Rattle.tb_races.specs.Orders.{Order};
ghost use Rattle.tb_lanes.specs.Bounds.{AreRising, IsRising, bound_among, bound_in};
ghost use Rattle.tb_lanes.specs.Clocks as is;
ghost use Rattle.tb_lanes.specs.Fewer.{AddsFor, AreFewer, IsClosedFor};
ghost use Rattle.tb_lanes.specs.Clocks.{AreTasks, IsShaped, adds, is_told, lane, lanes_of, row_of_step, says};

use std::alloc::{AllocError, Global};
use tb_lanes::{
    Clocks, LaneBound, Tasks, Waiter, add_row, bound_among as told_among, merged, reaches, row,
    whole,
};

/// Whether the step at `early` is listed as one in front of the step, where of its lane the row so
/// far says up to this bound.
pub fn is_merged(
    tasks: &Tasks,
    clocks: &Clocks,
    bound: usize,
    waiter: &Waiter,
    early: usize,
) -> bool
    requires shaped { IsShaped tasks.now }
    requires listed { waiter.now.at ≡ length clocks.now.of.items }
    requires laned { waiter.now.at ≡ length clocks.now.lanes.items }
    requires at { waiter.now.at < length tasks.now.numbers.items }
    requires early { early < waiter.now.at }
    ensures { (asked : ℕ → Bool) (o : Order) (entries : List Entry) (row : ℕ → ℕ)
        → AreTasks entries tasks.now
        → AreFewer asked o entries tasks.now waiter.now.at clocks.now
        → bound ≡ row (lane (lanes_of clocks.now) early)
        → (IsTrue result → IsTrue (is_told o entries tasks.now (lanes_of clocks.now) row
        waiter.now.lane waiter.now.at early))
        × (IsTrue (asked early) → result ≡ is_told o entries tasks.now (lanes_of clocks.now) row
        waiter.now.lane waiter.now.at early) }
{
    let lane = clocks.lanes[early];
    (waiter.lane == lane && early < waiter.at)
        || (early < bound || origin_reaches(tasks, clocks, waiter.at, early))
}

/// Whether what generates the task of the step at this index is the step at `early`, or comes after
/// it.
fn origin_reaches(tasks: &Tasks, clocks: &Clocks, at: usize, early: usize) -> bool
    requires shaped { IsShaped tasks.now }
    requires listed { at ≡ length clocks.now.of.items }
    requires laned { at ≡ length clocks.now.lanes.items }
    requires at { at < length tasks.now.numbers.items }
    ensures { (asked : ℕ → Bool) (o : Order) (entries : List Entry)
        → AreTasks entries tasks.now → early < length entries
        → AreFewer asked o entries tasks.now at clocks.now
        → (IsTrue result → IsTrue (is.origin_reaches o entries (is.origin tasks.now at) early))
        × (IsTrue (asked early)
        → result ≡ is.origin_reaches o entries (is.origin tasks.now at) early) }
{
    let origin = tasks.origins[at];
    if origin <= early {
        return false;
    }
    reaches(tasks, clocks, origin - 1, early)
}

/// Adds the step at this index, with all that is in front of it and isn't listed yet. What
/// generates its task is listed with all that is in front of it, or must be added too.
pub fn join(
    alloc: Global,
    rows: &mut Vec<Vec<LaneBound>>,
    tasks: &Tasks,
    clocks: &Clocks,
    waiter: &Waiter,
    place: usize,
) -> Result<(), AllocError>
    requires shaped { IsShaped tasks.now }
    requires listed { waiter.now.at ≡ length clocks.now.of.items }
    requires laned { waiter.now.at ≡ length clocks.now.lanes.items }
    requires at { waiter.now.at < length tasks.now.numbers.items }
    requires place { place < waiter.now.at }
    ensures rising { OnOk result (
        ((p : ℕ) → p < waiter.now.at → IsRising (row_of_step clocks.now p))
        → AreRising rows.old.items → AreRising rows.new.items) }
    ensures more { OnOk result ((asked : ℕ → Bool) (o : Order) (entries : List Entry)
        → AreTasks entries tasks.now
        → AreFewer asked o entries tasks.now waiter.now.at clocks.now → AreRising rows.old.items
        → IsClosedFor asked o entries tasks.now (lanes_of clocks.now)
        (bound_among rows.old.items) waiter.now.lane waiter.now.at
        → AddsFor asked o entries tasks.now clocks.now waiter.now.lane waiter.now.at place
        (bound_among rows.old.items) (bound_among rows.new.items)) }
{
    let mut at = place;
    let mut more = Vec::new(alloc);
    let first = row_with(alloc, clocks, at)?;
    add_row(alloc, &mut more, first)?;
    'up: while tasks.origins[at] > 0 {
        at = tasks.origins[at] - 1;
        if is_merged(
            tasks,
            clocks,
            told_among(rows, clocks.lanes[at]),
            waiter,
            at,
        ) {
            let row = whole(alloc, more)?;
            add_row(alloc, rows, row)?;
            return Ok(());
        }
        let next = row_with(alloc, clocks, at)?;
        add_row(alloc, &mut more, next)?;
    }
    let row = whole(alloc, more)?;
    add_row(alloc, rows, row)?;
    Ok(())
}

/// The row of the step at this index, with its own lane up to it.
fn row_with(alloc: Global, clocks: &Clocks, at: usize) -> Result<Vec<LaneBound>, AllocError>
    requires laned { length clocks.now.lanes.items ≡ length clocks.now.of.items }
    requires at { at < length clocks.now.of.items }
    ensures rising { IfOk result (λ row. IsRising (row_of_step clocks.now at)
        → IsRising row.items) }
    ensures adds { IfOk result (λ row. (k q : ℕ) →
        says (bound_in row.items) k q ≡ adds (lanes_of clocks.now) at k q) }
{
    let Some(own) = LaneBound::up_to(clocks.lanes[at], at) else {
        return Err(AllocError);
    };
    let row = merged(alloc, &[own], row(&clocks.rows, clocks.of[at]))?;
    Ok(row)
}
