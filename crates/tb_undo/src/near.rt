//! Where the row of a task is.

ghost use Rattle.std.specs.Prelude.{◌≡◌, Some, IsTrue, option_map};
ghost use Rattle.std.specs.Option.{option_copied};
ghost use Rattle.tb_wait.specs.Kin.{place};
ghost use Rattle.tb_undo.specs.declared.row.Row.{Row as ARow};
ghost use Rattle.tb_undo.specs.Places.{AreInPlace, row_at, rows_in};
ghost use Rattle.tb_undo.specs.Standings.{standing_of};
ghost use Rattle.tb_undo.specs.Tasks.{row, seen_row};

use crate::row::Row;
use crate::standing::Standing;
use tb_model::TaskName;
use tb_wait::Wait;

/// The index of the task's name in the table of waits, where its row is, if the task is there. The
/// index `near` is tried first, which may be any, since an index counts only where the very name
/// is.
#[inline(always)]
pub fn find(rows: &Vec<Option<Row>>, waits: &Wait, near: usize, name: &TaskName) -> Option<usize>
    requires { AreInPlace waits.now.tasks rows.now.items }
    ensures { result ≡ place waits.now.tasks name.now }
{
    if stands_at(rows, near, name) {
        return Some(near);
    }
    find_elsewhere(rows, waits, near, name)
}

/// The index of a task's name that isn't at the index `near`: mostly the task was generated right
/// after the one there, or is its parent, its child or its sibling.
// out of line: most calls don't pay for its stack frame
#[inline(never)]
fn find_elsewhere(
    rows: &Vec<Option<Row>>,
    waits: &Wait,
    near: usize,
    name: &TaskName,
) -> Option<usize>
    requires { AreInPlace waits.now.tasks rows.now.items }
    ensures { result ≡ place waits.now.tasks name.now }
{
    let next = near.saturating_add(1);
    if stands_at(rows, next, name) {
        return Some(next);
    }
    let mut walk = near;
    waits.walk_place(&mut walk, name)
}

/// Whether the task's row is at the index.
#[inline(always)]
fn stands_at(rows: &Vec<Option<Row>>, at: usize, name: &TaskName) -> bool
    ensures { IsTrue result → (r : ARow) × (row_at rows.now.items at ≡ Some r) × (r.holders.parent ≡ name.now) }
{
    match row_at(rows, at) {
        Some(row) => *row.name() == *name,
        None => false,
    }
}

/// The row at the index, where a task is there.
#[inline(always)]
pub fn row_at(rows: &Vec<Option<Row>>, at: usize) -> Option<&Row>
    ensures { option_copied result ≡ row_at rows.now.items at }
{
    match rows.as_slice().get(at) {
        Some(Some(row)) => Some(row),
        _ => None,
    }
}

/// The task's row, which is looked for at the index `near` first.
#[inline(always)]
pub fn get<'a>(
    rows: &'a Vec<Option<Row>>,
    waits: &Wait,
    near: usize,
    name: &TaskName,
) -> Option<&'a Row>
    requires { AreInPlace waits.now.tasks rows.now.items }
    ensures value { option_copied result ≡ row (rows_in rows.now.items) name.now }
{
    let at = find(rows, waits, near, name)?;
    row_at(rows, at)
}

/// Where the task is, by its row, which is looked for at the index `near` first.
#[inline(always)]
pub fn standing<'a>(
    rows: &'a Vec<Option<Row>>,
    waits: &Wait,
    near: usize,
    name: &TaskName,
) -> Option<Standing<'a>>
    requires { AreInPlace waits.now.tasks rows.now.items }
    ensures { result ≡ option_map (λ r. standing_of (seen_row r)) (row (rows_in rows.now.items) name.now) }
{
    let at = find(rows, waits, near, name)?;
    let row = row_at(rows, at)?;
    Some(Standing::of(row, at))
}
