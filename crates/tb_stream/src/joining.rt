//! A step that comes before one that waits is joined to it.

ghost use Rattle.std.specs.Prelude.{◌≡◌, ℕ, IfOk, OnOk};
ghost use Rattle.tb_lanes.specs.Bounds.{AreRising, IsRising, bound_among, bound_in};
ghost use Rattle.tb_lanes.specs.Clocks as is;
ghost use Rattle.tb_lanes.specs.Clocks.{Adds, IsSound, Lanes, adds, is_told, origin, row_in, says};
ghost use Rattle.tb_stream.specs.Seen.{AreClocks, IsFull, IsMark, IsNext, Run, order};

use crate::clocks::Clocks;
use crate::mark::Mark;
use crate::reaching::{origin_of, reaches};
use std::alloc::{AllocError, Global};
use tb_lanes::{LaneBound, add_row, bound_among as told_among, merged, row, whole};

/// Whether the earlier step is listed as one in front of the step, where of its lane the row so far
/// says up to this bound.
pub fn is_merged(clocks: &Clocks, bound: usize, step: Mark, early: Mark) -> bool
    ensures { (r : Run) (n : ℕ) (lanes : Lanes) (row : ℕ → ℕ) → AreClocks r n lanes clocks.now
        → IsNext r n step → IsMark n lanes early → bound ≡ row (lanes.lane early.at)
        → result ≡ is_told (order r) r.entries r.tasks lanes row step.lane n early.at }
{
    (step.lane == early.lane && early.at < step.at)
        || (early.at < bound || origin_reaches(clocks, step, early))
}

/// Whether the step that generated the task of this one is the earlier one, or comes after it.
fn origin_reaches(clocks: &Clocks, step: Mark, early: Mark) -> bool
    ensures { (r : Run) (n : ℕ) (lanes : Lanes) → AreClocks r n lanes clocks.now
        → IsNext r n step → IsMark n lanes early
        → result ≡ is.origin_reaches (order r) r.entries (origin r.tasks n) early.at }
{
    match origin_of(clocks, step) {
        Some(origin) => reaches(clocks, origin, early),
        None => false,
    }
}

/// Adds the end, with all that is in front of it and isn't listed yet. What generates its task is
/// listed with all that is in front of it, or must be added too.
pub fn join(
    alloc: Global,
    rows: &mut Vec<Vec<LaneBound>>,
    clocks: &Clocks,
    step: Mark,
    end: Mark,
) -> Result<(), AllocError>
    ensures rising { OnOk result ((r : Run) (n : ℕ) (lanes : Lanes) → AreClocks r n lanes clocks.now
        → IsFull r n lanes clocks.now.rows.items end → AreRising rows.old.items
        → AreRising rows.new.items) }
    ensures more { OnOk result ((r : Run) (n : ℕ) (lanes : Lanes) → AreClocks r n lanes clocks.now
        → IsNext r n step → IsFull r n lanes clocks.now.rows.items end → AreRising rows.old.items
        → IsSound (order r) r.entries r.tasks lanes (bound_among rows.old.items) step.lane n
        → Adds (order r) r.entries r.tasks lanes step.lane n end.at
        (bound_among rows.old.items) (bound_among rows.new.items)) }
{
    let mut more = Vec::new(alloc);
    let first = row_with(alloc, clocks, end)?;
    add_row(alloc, &mut more, first)?;
    let mut mark = end;
    'up: while let Some(origin) = origin_of(clocks, mark) {
        if is_merged(clocks, told_among(rows, origin.lane), step, origin) {
            let row = whole(alloc, more)?;
            add_row(alloc, rows, row)?;
            return Ok(());
        }
        let next = row_with(alloc, clocks, origin)?;
        add_row(alloc, &mut more, next)?;
        mark = origin;
    }
    let row = whole(alloc, more)?;
    add_row(alloc, rows, row)?;
    Ok(())
}

/// The row of the step, with its own lane up to it.
fn row_with(alloc: Global, clocks: &Clocks, mark: Mark) -> Result<Vec<LaneBound>, AllocError>
    ensures rising { IfOk result (λ row. IsRising (row_in clocks.now.rows.items mark.row)
        → IsRising row.items) }
    ensures adds { IfOk result (λ row. (r : Run) (n : ℕ) (lanes : Lanes)
        → IsFull r n lanes clocks.now.rows.items mark → (k q : ℕ)
        → says (bound_in row.items) k q ≡ adds lanes mark.at k q) }
{
    let Some(own) = LaneBound::up_to(mark.lane, mark.at) else {
        return Err(AllocError);
    };
    let row = merged(alloc, &[own], row(&clocks.rows, mark.row))?;
    Ok(row)
}
