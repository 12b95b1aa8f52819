//! The steps at each cell and at the output with which a later step may still race.

ghost use Rattle.std.specs.Prelude.{◌≡◌, ◌<◌, ◌∷◌, ◌++◌, ◌≢◌, ℕ, [], List, OnOk, length, take};
ghost use Rattle.tb_steps.specs.Entries.{Entry};
ghost use Rattle.tb_races.specs.Orders.{Order};
ghost use Rattle.tb_lanes.specs.Clocks.{kept_in};
ghost use Rattle.tb_lanes.specs.Kept as sharing;
ghost use Rattle.tb_lanes.specs.Kept.{AreKept};

use std::alloc::{AllocError, Global};
use tb_model::Action;

/// Of each cell and of the output the steps with which a later step may still race by one order,
/// the oldest first. One that comes before a newer one is left out where that races with as much.
#[derive(Drop)]
pub struct Kept {
    pub alloc: Global,
    /// By the index of what they share: those that store or print.
    pub writes: Vec<Vec<usize>>,
    /// By the index of what they share: those that load.
    pub loads: Vec<Vec<usize>>,
}

/// Nothing is stored yet.
pub fn nothing(alloc: Global) -> Kept
    ensures { (o : Order) (entries : List Entry) → AreKept o entries 0 result }
{
    Kept {
        alloc,
        writes: Vec::new(alloc),
        loads: Vec::new(alloc),
    }
}

/// The index of what the action shares with others: 0 for the output, and for each cell the next
/// after its own.
pub fn slot_of(action: &Action) -> Option<usize>
    ensures { result ≡ sharing.slot_of action.now }
{
    match action {
        Action::Load { cell, .. } => Some(*cell as usize + 1),
        Action::Store { cell, .. } => Some(*cell as usize + 1),
        Action::Print { .. } => Some(0),
        _ => None,
    }
}

/// Whether the action loads from a cell.
pub fn is_load(action: &Action) -> bool
    ensures { result ≡ sharing.is_load action.now }
{
    matches!(action, Action::Load { .. })
}

/// The row with this index.
pub fn places_in(rows: &[Vec<usize>], i: usize) -> &[usize]
    ensures { result.now ≡ kept_in rows.now i }
{
    if i < rows.len() {
        rows[i].as_slice()
    } else {
        &[]
    }
}

/// Of the row with this index the first indexes stay, as many as are given.
pub fn cut(rows: &mut Vec<Vec<usize>>, slot: usize, count: usize)
    requires slot { slot < length rows.old.items }
    ensures row { kept_in rows.new.items slot ≡ take count (kept_in rows.old.items slot) }
    ensures others { (k : ℕ) → k ≢ slot → kept_in rows.new.items k ≡ kept_in rows.old.items k }
    ensures same { length rows.new.items ≡ length rows.old.items }
{
    rows[slot].truncate(count);
}

/// Of the row with this index the first indexes stay, as many as `count`, and `at` is added after them.
pub fn put(
    rows: &mut Vec<Vec<usize>>,
    slot: usize,
    count: usize,
    at: usize,
) -> Result<(), AllocError>
    requires slot { slot < length rows.old.items }
    ensures row { OnOk result (kept_in rows.new.items slot
        ≡ take count (kept_in rows.old.items slot) ++ at ∷ []) }
    ensures others { (k : ℕ) → k ≢ slot → kept_in rows.new.items k ≡ kept_in rows.old.items k }
{
    cut(rows, slot, count);
    rows[slot].push(at)?;
    Ok(())
}

/// Reserves capacity for the row with this index.
pub fn grow(alloc: Global, rows: &mut Vec<Vec<usize>>, i: usize) -> Result<(), AllocError>
    ensures same { (j : ℕ) → kept_in rows.new.items j ≡ kept_in rows.old.items j }
    ensures within { OnOk result (i < length rows.new.items) }
{
    while rows.len() <= i {
        rows.push(Vec::new(alloc))?;
    }
    Ok(())
}
