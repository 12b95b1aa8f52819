//! An end is added to the rows in which it belongs.

ghost use Rattle.std.specs.Prelude.{◌≡◌, ◌<◌, ◌≤◌, ◌+◌, length, IsTrue, OnOk};
ghost use Rattle.tb_steps.specs.Scans.{AreLegal};
ghost use Rattle.tb_races.specs.Orders.{Order};
ghost use Rattle.tb_lanes.specs.Clocks.{AreClocks, AreTasks, IsShaped, is_end_at};
ghost use Rattle.tb_lanes.specs.Rows.{AddsTo, AreFit, AreRows, IsNoted};

use crate::waiting::items_of;
use std::alloc::{AllocError, Global};
use tb_core::History;
use tb_lanes::{Clocks, Key, Rows, Tasks, item_key, no_ends, note_end, parent_of};

/// Adds the end at this index to each row in which it belongs.
pub fn note_rows(
    alloc: Global,
    entries: &History<'_>,
    tasks: &Tasks,
    clocks: &Clocks,
    rows: &mut Rows,
    at: usize,
) -> Result<(), AllocError>
    requires legal { AreLegal entries.now }
    requires tasks { AreTasks entries.now tasks.now }
    requires at { at < length entries.now }
    requires over { IsTrue (is_end_at entries.now at) }
    requires fit { AreFit at rows.old.entries }
    requires listed { length clocks.now.of.items ≡ at + 1 }
    requires laned { length clocks.now.lanes.items ≡ at + 1 }
    ensures { OnOk result ((o : Order) → AreClocks o entries.now tasks.now (at + 1) clocks.now
        → AreRows o entries.now (IsNoted entries.now tasks.now at) rows.old.entries
        → AreRows o entries.now (IsNoted entries.now tasks.now (at + 1)) rows.new.entries) }
{
    let parent = parent_of(tasks, at);
    note(alloc, tasks, clocks, rows, (parent, 0, 0), at)?;
    let items = items_of(entries, tasks, at);
    for item in items {
        let key = item_key(parent, item.kind, item.place);
        note(alloc, tasks, clocks, rows, key, at)?;
    }
    Ok(())
}

/// Adds the end at this index to the row of this key.
fn note(
    alloc: Global,
    tasks: &Tasks,
    clocks: &Clocks,
    rows: &mut Rows,
    key: Key,
    at: usize,
) -> Result<(), AllocError>
    requires shaped { IsShaped tasks.now }
    requires listed { length clocks.now.of.items ≤ length tasks.now.numbers.items }
    requires laned { length clocks.now.lanes.items ≡ length clocks.now.of.items }
    requires at { at < length clocks.now.of.items }
    requires fit { AreFit at rows.old.entries }
    ensures fit { OnOk result (AreFit at rows.new.entries) }
    ensures more { OnOk result (AddsTo tasks.now clocks.now key at rows.old.entries rows.new.entries) }
{
    if let Some(row) = rows.get_mut(&key) {
        return note_end(tasks, clocks, row, at);
    }
    let mut row = no_ends(alloc);
    note_end(tasks, clocks, &mut row, at)?;
    rows.reserve(1)?;
    rows.insert(key, row).unwrap();
    Ok(())
}
