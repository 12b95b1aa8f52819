//! Which step comes after which.

ghost use Rattle.std.specs.Prelude.{◌≡◌, ◌<◌, ◌≤◌, ℕ, IfSome, None, Some, length};
ghost use Rattle.tb_lanes.specs.Clocks as is;
ghost use Rattle.tb_lanes.specs.Clocks.{Lanes, origin};
ghost use Rattle.tb_stream.specs.declared.mark.Mark.{Mark as AMark};
ghost use Rattle.tb_stream.specs.Seen.{AreClocks, IsFull, IsMark, IsOf, IsOrigin, Run, order};

use crate::clocks::Clocks;
use crate::mark::Mark;
use tb_lanes::{bound, row};

/// Whether the later step is the earlier one, or comes after it.
pub fn reaches(clocks: &Clocks, late: Mark, early: Mark) -> bool
    ensures { (r : Run) (n : ℕ) (lanes : Lanes) → AreClocks r n lanes clocks.now
        → IsFull r n lanes clocks.now.rows.items late → IsMark n lanes early
        → result ≡ is.reaches (order r) r.entries late.at early.at }
{
    let mut mark = late;
    'up: while early.at <= mark.at {
        if is_below(clocks, mark, early) {
            return true;
        }
        match origin_of(clocks, mark) {
            Some(origin) => mark = origin,
            None => return false,
        }
    }
    false
}

/// The step that generated the task of this one.
pub fn origin_of(clocks: &Clocks, mark: Mark) -> Option<Mark>
    ensures origin { (r : Run) (n : ℕ) (lanes : Lanes) → AreClocks r n lanes clocks.now
        → mark.at ≤ n → mark.at < length r.entries → IsOf r mark.at mark.task
        → IsOrigin r n lanes clocks.now.rows.items result (origin r.tasks mark.at) }
    ensures lower { IfSome result (λ m. m.at < mark.at) }
{
    match clocks.origins.get(mark.task) {
        Some(found) => in_front(*found, mark.at),
        None => None,
    }
}

/// The step, if it is before this index.
fn in_front(found: Option<Mark>, at: usize) -> Option<Mark>
    ensures same { (m : AMark) → found ≡ Some m → m.at < at → result ≡ found }
    ensures none { found ≡ None → result ≡ None }
    ensures lower { IfSome result (λ m. m.at < at) }
{
    match found {
        Some(mark) if mark.at < at => found,
        _ => None,
    }
}

/// Whether the earlier step is one of the lane of the other and not after it, or the row of the
/// other has it.
fn is_below(clocks: &Clocks, mark: Mark, early: Mark) -> bool
    ensures { (r : Run) (n : ℕ) (lanes : Lanes) → IsFull r n lanes clocks.now.rows.items mark
        → IsMark n lanes early
        → result ≡ is.is_below lanes (is.row_at lanes mark.at) (is.lane lanes mark.at) mark.at
        early.at }
{
    (mark.lane == early.lane && early.at <= mark.at)
        || early.at < bound(row(&clocks.rows, mark.row), early.lane)
}
