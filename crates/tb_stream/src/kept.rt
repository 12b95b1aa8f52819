//! The steps at each cell and at the output with which a later step may still race.

ghost use Rattle.std.specs.Prelude.{◌≡◌, ◌<◌, ◌≤◌, ◌+◌, ◌++◌, ◌∷◌, ◌⊎◌, [], ℕ, IfOk, OnOk, Some, length, slice_get, take};
ghost use Rattle.tb_lanes.specs.Clocks.{Lanes};
ghost use Rattle.tb_lanes.specs.Kept.{IsCut, IsLarger};
ghost use Rattle.tb_stream.specs.Keeping.{AreKept, AreTouched, IsAccess, IsFound, IsTold, behind, last_in, places};
ghost use Rattle.tb_stream.specs.declared.access.Access.{Access as AnAccess};
ghost use Rattle.tb_stream.specs.Seen.{Extends, IsAdded, IsEvent, IsMark, Run, order};

use crate::access::Access;
use crate::clocks::Clocks;
use crate::mark::Mark;
use crate::reaching::reaches;
use crate::touched::Touched;
use indexmap::IndexMap;
use std::alloc::{AllocError, Global};
use tb_lanes::{is_load, slot_of};
use tb_model::Action;

/// By what they share, the output or a cell.
pub type Kept = IndexMap<usize, Touched>;

/// The newest step that shares something with this one and doesn't come before it. Then this step
/// is stored too.
pub fn meet(
    alloc: Global,
    kept: &mut Kept,
    clocks: &Clocks,
    action: &Action,
    access: Access,
) -> Result<Option<Access>, AllocError>
    ensures newest { IfOk result (λ o. (r : Run) (n : ℕ) (lanes next : Lanes)
        → IsAdded r n next clocks.now access.mark → Extends n lanes next → IsEvent r n action.now
        → AreKept r n lanes kept.old.entries → IsFound r n lanes o) }
    ensures kept { OnOk result ((r : Run) (n : ℕ) (lanes next : Lanes)
        → IsAdded r n next clocks.now access.mark → Extends n lanes next → IsEvent r n action.now
        → IsAccess r (n + 1) next access → AreKept r n lanes kept.old.entries
        → AreKept r (n + 1) next kept.new.entries) }
{
    let Some(slot) = slot_of(action) else {
        return Ok(None);
    };
    if let Some(touched) = kept.get_mut(&slot) {
        return touch(touched, clocks, is_load(action), access);
    }
    let mut touched = Touched {
        writes: Vec::new(alloc),
        loads: Vec::new(alloc),
    };
    let newest = touch(&mut touched, clocks, is_load(action), access)?;
    kept.reserve(1)?;
    kept.insert(slot, touched).unwrap();
    Ok(newest)
}

/// The newest step there with which this one races, if it isn't ordered. Then this step is stored
/// too.
fn touch(
    touched: &mut Touched,
    clocks: &Clocks,
    load: bool,
    access: Access,
) -> Result<Option<Access>, AllocError>
    ensures newest { IfOk result (λ o. (r : Run) (n i : ℕ) (lanes next : Lanes)
        → IsAdded r n next clocks.now access.mark → Extends n lanes next → IsTold r n i load
        → AreTouched r n lanes i touched.old → IsFound r n lanes o) }
    ensures kept { OnOk result ((r : Run) (n i : ℕ) (lanes next : Lanes)
        → IsAdded r n next clocks.now access.mark → Extends n lanes next → IsTold r n i load
        → IsAccess r (n + 1) next access → AreTouched r n lanes i touched.old
        → AreTouched r (n + 1) next i touched.new) }
{
    let writes = unordered(clocks, &touched.writes, access.mark);
    let loads = unordered(clocks, &touched.loads, access.mark);
    let write = last_of(&touched.writes, writes);
    if load {
        put(&mut touched.loads, loads, access)?;
        return Ok(write);
    }
    let read = last_of(&touched.loads, loads);
    put(&mut touched.writes, writes, access)?;
    touched.loads.truncate(loads);
    Ok(newer(write, read))
}

/// How many steps of the row there are up to the newest that the step doesn't come after.
fn unordered(clocks: &Clocks, row: &[Access], mark: Mark) -> usize
    ensures few { result ≤ length row.now }
    ensures cut { (r : Run) (n : ℕ) (lanes : Lanes) → IsAdded r n lanes clocks.now mark
        → ((j : ℕ) (a : AnAccess) → slice_get row.now j ≡ Some a → IsMark (n + 1) lanes a.mark)
        → IsCut (order r) r.entries n (places row.now) result }
{
    let mut left = row.len();
    'back: while left > 0 && reaches(clocks, mark, row[left - 1].mark) {
        left -= 1;
    }
    left
}

/// The last of the first steps of the row, as many as are given.
fn last_of(row: &[Access], count: usize) -> Option<Access>
    ensures { result ≡ last_in row.now count }
{
    if 0 < count && count <= row.len() {
        Some(row[count - 1])
    } else {
        None
    }
}

/// The newer of the two.
fn newer(one: Option<Access>, other: Option<Access>) -> Option<Access>
    ensures larger { IsLarger (behind one) (behind other) (behind result) }
    ensures either { (result ≡ one) ⊎ (result ≡ other) }
{
    match (one, other) {
        (None, _) => other,
        (_, None) => one,
        (Some(a), Some(b)) => { if a.mark.at < b.mark.at { other } else { one } }
    }
}

/// Of the row the first steps stay, as many as are given, and this one is added.
fn put(row: &mut Vec<Access>, count: usize, access: Access) -> Result<(), AllocError>
    ensures { OnOk result (row.new.items ≡ take count row.old.items ++ access ∷ []) }
{
    row.truncate(count);
    row.push(access)?;
    Ok(())
}
