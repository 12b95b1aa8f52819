//! An order of the steps of a run.

ghost use Rattle.std.specs.Prelude.{◌≡◌};
ghost use Rattle.std.specs.Option.{option_copied};
ghost use Rattle.tb_stream.specs.Ends as is;

use crate::clocks::Clocks;
use crate::end::End;
use indexmap::IndexMap;
use std::alloc::Global;
use tb_lanes::Key;

/// The ends by what a step may wait for: those of the children of a task, and of those of them that
/// have an item of a kind at an index.
pub type Rows = IndexMap<Key, Vec<End>>;

/// An order of the steps of a run, where exclusion counts or doesn't.
#[derive(Drop)]
pub struct Order {
    pub alloc: Global,
    pub exclusion: bool,
    pub clocks: Clocks,
    /// All ends, the oldest first.
    pub ends: Vec<End>,
    pub rows: Rows,
    /// The index of the first end in whose lane no step went on.
    pub free: usize,
}

/// The row of this key.
pub fn row_of<'a>(rows: &'a Rows, key: &Key) -> Option<&'a Vec<End>>
    ensures { option_copied result ≡ is.row_of rows.now.entries key.now }
{
    rows.get(key)
}
