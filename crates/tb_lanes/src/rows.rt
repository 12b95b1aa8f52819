//! The ends of a history by what a step may wait for.

ghost use Rattle.std.specs.Prelude.{◌≡◌, ◌<◌, ◌≤◌, length};
ghost use Rattle.std.specs.Option.{option_copied};
ghost use Rattle.tb_lanes.specs.Clocks.{IsShaped};
ghost use Rattle.tb_lanes.specs.Rows as is;

use crate::ends::Ends;
use crate::tasks::Tasks;
use indexmap::IndexMap;
use tb_model::{Kind, Place};

/// What the ends of a row have in common: the id of the task that generates theirs, and 0 and 0, or
/// an item of theirs, by a code and its cell.
pub type Key = (usize, u32, u32);

/// The ends of a history by what they have in common.
pub type Rows = IndexMap<Key, Ends>;

/// The id of the task that generates that of the step at this index. The root counts as its own
/// child.
pub fn parent_of(tasks: &Tasks, at: usize) -> usize
    requires shaped { IsShaped tasks.now }
    requires at { at < length tasks.now.numbers.items }
    ensures { result ≡ is.parent tasks.now at }
{
    let origin = tasks.origins[at];
    let maker = if origin == 0 { 0 } else { origin - 1 };
    tasks.numbers[maker]
}

/// Two codes for each kind: at a cell, and at all memory.
fn kind_number(kind: Kind) -> u32
    ensures low { result ≤ 9 }
    ensures told { result ≡ is.kind_number kind }
{
    match kind {
        Kind::In => 1,
        Kind::Out => 3,
        Kind::Inout => 5,
        Kind::Mutexinoutset => 7,
        Kind::Inoutset => 9,
    }
}

/// The key of the ends of the children of a task that have an item of this kind at this index.
pub fn item_key(parent: usize, kind: Kind, place: Place) -> Key
    ensures { result ≡ is.item_key parent kind place }
{
    match place {
        Place::Cell(cell) => (parent, kind_number(kind), cell),
        Place::All => (parent, kind_number(kind) + 1, 0),
    }
}

/// The row of this key.
pub fn row_of<'a>(rows: &'a Rows, key: &Key) -> Option<&'a Ends>
    ensures { option_copied result ≡ is.row_of rows.now.entries key.now }
{
    rows.get(key)
}
