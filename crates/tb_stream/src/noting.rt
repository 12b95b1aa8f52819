//! An end is added to the rows in which it belongs.

ghost use Rattle.std.specs.Prelude.{◌≡◌, ◌<◌, ◌≤◌, ◌+◌, ◌⊎◌, ℕ, Option, length, IsTrue, OnOk};
ghost use Rattle.tb_lanes.specs.Clocks as is;
ghost use Rattle.tb_lanes.specs.Clocks.{Lanes, end_at, is_end_at};
ghost use Rattle.tb_lanes.specs.Rows.{Key as AKey, items_at};
ghost use Rattle.tb_stream.specs.Ends.{AreRows, AreStored, AtStage, IsChild, IsMeant, IsNoted, WithOne, ends_of};
ghost use Rattle.tb_stream.specs.Seen.{IsAdded, Run, order};

use crate::clocks::Clocks;
use crate::end::End;
use crate::mark::Mark;
use crate::merging::lower;
use crate::order::Rows;
use crate::reaching::reaches;
use std::alloc::{AllocError, Global};
use tb_lanes::{Key, item_key};
use tb_model::Item;

/// Adds the end of a task to each row in which it belongs, where this is the id of its parent and
/// these are its depend items.
pub fn note_rows(
    alloc: Global,
    clocks: &Clocks,
    rows: &mut Rows,
    mark: Mark,
    parent: usize,
    items: &[Item],
) -> Result<(), AllocError>
    ensures { OnOk result ((r : Run) (n : ℕ) (lanes : Lanes) → IsAdded r n lanes clocks.now mark
        → IsTrue (is_end_at r.entries n) → IsChild r parent n → items.now ≡ items_at r.entries n
        → AreRows r (n + 1) lanes clocks.now.rows.items (IsNoted r n) rows.old.entries
        → AreRows r (n + 1) lanes clocks.now.rows.items (IsNoted r (n + 1)) rows.new.entries) }
{
    note(alloc, clocks, rows, (parent, 0, 0), mark)?;
    for item in items {
        note(
            alloc,
            clocks,
            rows,
            item_key(parent, item.kind, item.place),
            mark,
        )?;
    }
    Ok(())
}

/// Adds the end to the row of this key.
fn note(
    alloc: Global,
    clocks: &Clocks,
    rows: &mut Rows,
    key: Key,
    mark: Mark,
) -> Result<(), AllocError>
    ensures { OnOk result ((r : Run) (n : ℕ) (lanes : Lanes)
        (stage : Option (ℕ × ℕ)) → IsAdded r n lanes clocks.now mark
        → AreRows r (n + 1) lanes clocks.now.rows.items (AtStage r n stage) rows.old.entries
        → AreRows r (n + 1) lanes clocks.now.rows.items (WithOne (AtStage r n stage) key n)
        rows.new.entries) }
{
    if let Some(row) = rows.get_mut(&key) {
        return note_end(clocks, row, mark);
    }
    let mut row = Vec::new(alloc);
    note_end(clocks, &mut row, mark)?;
    rows.reserve(1)?;
    rows.insert(key, row).unwrap();
    Ok(())
}

/// Adds the end.
pub fn note_end(clocks: &Clocks, ends: &mut Vec<End>, mark: Mark) -> Result<(), AllocError>
    ensures { OnOk result ((r : Run) (n : ℕ) (lanes : Lanes)
        (meant : Option (Option (ℕ × ℕ) × AKey)) → IsAdded r n lanes clocks.now mark
        → AreStored r (n + 1) lanes clocks.now.rows.items (IsMeant r n meant) ends.old
        → AreStored r (n + 1) lanes clocks.now.rows.items (λ x. IsMeant r n meant x ⊎ (x ≡ n))
        ends.new) }
{
    let skip = first_skipped(clocks, ends, mark);
    ends.push(End { mark, skip })?;
    Ok(())
}

/// The index of the first end from which on the step comes after all.
fn first_skipped(clocks: &Clocks, ends: &Vec<End>, mark: Mark) -> usize
    ensures within { result ≤ length ends.now.items }
    ensures reached { (r : Run) (n : ℕ) (lanes : Lanes)
        (meant : Option (Option (ℕ × ℕ) × AKey)) → IsAdded r n lanes clocks.now mark
        → AreStored r (n + 1) lanes clocks.now.rows.items (IsMeant r n meant) ends.now
        → (j : ℕ) → result ≤ j
        → j < length ends.now.items
        → IsTrue (is.reaches (order r) r.entries n (end_at (ends_of ends.now) j)) }
{
    let mut from = ends.len();
    'back: while from > 0 {
        let end = ends[from - 1];
        if !reaches(clocks, mark, end.mark) {
            return from;
        }
        from = lower(end.skip, from - 1);
    }
    from
}
