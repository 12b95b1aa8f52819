//! The rows of tasks.

ghost use Rattle.std.specs.Prelude.{◌≡◌, ◌<◌, ◌++◌, OnErr, OnOk, vec_capacity, vec_len};
ghost use Rattle.tb_clocks.specs.Steps.{Advances, Stays, rows_of};

use crate::row::Row;
use std::alloc::AllocError;
use tb_model::Action;

/// The task with this id executes this step, which has this index in the history. A task of which
/// so many steps or children were counted as there are numbers wants memory.
pub fn advance(
    rows: &mut Vec<Row>,
    task: usize,
    at: usize,
    action: &Action,
) -> Result<(), AllocError>
    ensures capacity { vec_capacity rows.new ≡ vec_capacity rows.old }
    ensures ok { OnOk result (Advances task at action.now rows.old.items rows.new.items) }
    ensures err { OnErr result (Stays task rows.old.items rows.new.items) }
{
    let Some(row) = rows.get_mut(task) else {
        return Err(AllocError);
    };
    if row.steps >= u32::MAX || row.children >= u32::MAX {
        return Err(AllocError);
    }
    row.advance(at, action)
}

/// Adds a row, if there is one, in the capacity that there is.
pub fn add(rows: &mut Vec<Row>, row: Option<Row>)
    requires { vec_len rows.old < vec_capacity rows.old }
    ensures { rows.new.items ≡ rows.old.items ++ rows_of row }
{
    if let Some(row) = row {
        rows.push_reserved(row);
    }
}
