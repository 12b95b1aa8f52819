//! The ends for which a step waits come before it.

ghost use Rattle.std.specs.Prelude.{◌≡◌, ◌≤◌, ◌⊎◌, ℕ, OnOk, Option, Some, IsTrue, slice_index_or};
ghost use Rattle.tb_lanes.specs.Clocks.{Lanes};
ghost use Rattle.tb_lanes.specs.Rows.{Key};
ghost use Rattle.tb_stream.specs.Ends.{AreStored, IsOfRow};
ghost use Rattle.tb_stream.specs.Joins.{AreJoined, IsWaiting, Merges};
ghost use Rattle.tb_stream.specs.Seen.{Run};

use crate::end::End;
use crate::joined::Joined;
use crate::joining::{is_merged, join};
use crate::mark::Mark;
use crate::order::Order;
use crate::waiter::Waiter;
use crate::waiting::waits;
use std::alloc::AllocError;
use tb_lanes::bound_among;

/// Adds the ends of the row to which the step is linked, with all that is in front of them.
pub fn merge(
    joined: &mut Joined,
    waiter: &Waiter<'_>,
    order: &Order,
    ends: &Vec<End>,
) -> Result<(), AllocError>
    ensures { OnOk result ((r : Run) (n : ℕ) (lanes : Lanes) (key : Option Key)
        → IsWaiting r n lanes order.now waiter.now
        → AreJoined r n lanes order.now.clocks.rows.items waiter.now.step.lane joined.old
        → AreStored r n lanes order.now.clocks.rows.items (IsOfRow r n key) ends.now
        → Merges r n lanes order.now.clocks.rows.items waiter.now.step.lane (IsOfRow r n key)
        joined.old joined.new) }
{
    let mut left = ends.len();
    'back: while left > 0 {
        left -= 1;
        let end = ends[left];
        if end.mark.at < waiter.from {
            return Ok(());
        }
        let told = bound_among(&joined.rows, end.mark.lane);
        if is_merged(&order.clocks, told, waiter.step, end.mark) {
            left = lower(end.skip, left);
        } else if waits(order.exclusion, waiter, end.mark) {
            join(
                order.alloc,
                &mut joined.rows,
                &order.clocks,
                waiter.step,
                end.mark,
            )?;
            joined.end = Some(better(&order.clocks.lasts, joined.end, end.mark));
            left = lower(end.skip, left);
        }
    }
    Ok(())
}

/// The number, if it isn't above the other, and else that.
pub fn lower(number: usize, other: usize) -> usize
    ensures low { result ≤ other }
    ensures same { number ≤ other → result ≡ number }
{
    if number <= other { number } else { other }
}

/// Of an end that was found and a further one, the one in whose lane a step may go on.
fn better(lasts: &[usize], found: Option<Mark>, end: Mark) -> Mark
    ensures { (result ≡ end) ⊎ (found ≡ Some result) }
{
    match found {
        Some(other) if !is_last(lasts, end) => other,
        _ => end,
    }
}

/// Whether the step is the newest of its lane.
pub fn is_last(lasts: &[usize], mark: Mark) -> bool
    ensures { IsTrue result → mark.at ≡ slice_index_or lasts.now mark.lane 0 }
{
    match lasts.get(mark.lane) {
        Some(last) => *last == mark.at,
        None => false,
    }
}
