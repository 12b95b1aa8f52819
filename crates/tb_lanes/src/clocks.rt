//! What an order puts in front of each step of a history.

ghost use Rattle.std.specs.Prelude.{◌≡◌, ◌<◌, ◌≤◌, ℕ, List, Bool, length, IsTrue};
ghost use Rattle.tb_steps.specs.Entries.{Entry};
ghost use Rattle.tb_races.specs.Orders.{Order};
ghost use Rattle.tb_lanes.specs.Clocks as is;
ghost use Rattle.tb_lanes.specs.Clocks.{AreTasks, IsShaped, kept_in, lane, lanes_of, row_at, row_in, row_of_step};
ghost use Rattle.tb_lanes.specs.Bounds.{IsRising};
ghost use Rattle.tb_lanes.specs.Fewer.{AreFewer};

use crate::bounds::bound;
use crate::lane_bound::LaneBound;
use crate::tasks::Tasks;

/// What an order puts in front of each step of a history, by lanes: of each lane it is all up to
/// some step. A lane is a row of tasks, each of which starts after the end of the one in front.
#[derive(Drop)]
pub struct Clocks {
    /// For each step the index of a row, one more, and 0 for one with nothing.
    pub of: Vec<usize>,
    /// In each row how far the lanes are in front, the lanes rising.
    pub rows: Vec<Vec<LaneBound>>,
    /// For each step its lane.
    pub lanes: Vec<usize>,
    /// For each lane its newest step.
    pub lasts: Vec<usize>,
}

/// Whether the step at `late` is the one at `early`, or comes after it.
pub fn reaches(tasks: &Tasks, clocks: &Clocks, late: usize, early: usize) -> bool
    requires shaped { IsShaped tasks.now }
    requires listed { length clocks.now.of.items ≤ length tasks.now.numbers.items }
    requires laned { length clocks.now.lanes.items ≡ length clocks.now.of.items }
    requires late { late < length clocks.now.of.items }
    requires early { early ≤ late }
    ensures { (asked : ℕ → Bool) (o : Order) (entries : List Entry) (n : ℕ)
        → AreTasks entries tasks.now → AreFewer asked o entries tasks.now n clocks.now → late < n
        → (IsTrue result → IsTrue (is.reaches o entries late early))
        × (IsTrue (asked early) → result ≡ is.reaches o entries late early) }
{
    let mut at = late;
    'up: while early <= at {
        if is_below(clocks, at, early) {
            return true;
        }
        if tasks.origins[at] == 0 {
            return false;
        }
        at = tasks.origins[at] - 1;
    }
    false
}

/// Whether the step at `early` is one of the lane of the step at this index, none after it, or its
/// row has it.
fn is_below(clocks: &Clocks, at: usize, early: usize) -> bool
    requires laned { length clocks.now.lanes.items ≡ length clocks.now.of.items }
    requires at { at < length clocks.now.of.items }
    requires early { early < length clocks.now.of.items }
    ensures { IsRising (row_of_step clocks.now at) → result ≡ is.is_below (lanes_of clocks.now)
        (row_at (lanes_of clocks.now) at) (lane (lanes_of clocks.now) at) at early }
{
    let lane = clocks.lanes[early];
    (clocks.lanes[at] == lane && early <= at)
        || early < bound(row(&clocks.rows, clocks.of[at]), lane)
}

/// The row with this index.
pub fn row(rows: &[Vec<LaneBound>], number: usize) -> &[LaneBound]
    ensures { result.now ≡ row_in rows.now number }
{
    if number == 0 {
        &[]
    } else {
        row_at(rows, number - 1)
    }
}

fn row_at(rows: &[Vec<LaneBound>], i: usize) -> &[LaneBound]
    ensures { result.now ≡ kept_in rows.now i }
{
    if i < rows.len() {
        rows[i].as_slice()
    } else {
        &[]
    }
}
