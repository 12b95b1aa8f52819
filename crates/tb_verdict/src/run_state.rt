//! What is stored of a run to judge its next event.

ghost use Rattle.std.specs.Prelude.{◌≡◌, [], IfOk};
ghost use Rattle.tb_verdict.specs.Judged.{IsRun};
ghost use Rattle.tb_verdict.specs.Texts.{first_numbers};

use crate::values::Values;
use std::alloc::{AllocError, Global};
use tb_undo::Tables;

/// What is stored of a run to judge its next event. Memory goes by its tasks and by the cells that
/// were given a value, not by its events or by how many cells there are.
#[derive(Drop)]
pub struct RunState {
    /// How many cells there are.
    pub cells: u32,
    /// What is stored of the tasks. It has no cells.
    pub tables: Tables,
    /// The last value of each cell that was given one; the others hold 0.
    pub values: Values,
}

impl RunState {
    /// Of no events, where some of so many cells begin with a value.
    pub fn new(alloc: Global, cells: u32, firsts: &Values) -> Result<RunState, AllocError>
        ensures { IfOk result (IsRun (first_numbers cells firsts.now.entries) 0 []) }
    {
        Ok(RunState {
            cells,
            tables: Tables::open(alloc, &[], 0)?,
            values: firsts.clone()?,
        })
    }
}
