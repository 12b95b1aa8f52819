//! Where a task is.

ghost use Rattle.std.specs.Prelude.{◌≡◌};
ghost use Rattle.tb_undo.specs.Standings.{standing_of};
ghost use Rattle.tb_undo.specs.Tasks.{seen_row};

use crate::row::Row;
use std::marker::Model;

/// Where a task is: its line, how many steps it has executed, and its registers, read where they
/// are stored.
#[derive(Drop)]
pub struct Standing<'a> {
    row: &'a Row,
    // where the row is
    place: usize,
}

impl<'a> Model for Standing<'a> {
    ghost use Rattle.tb_undo.specs.Standings.{Standing, standing_of};
    ghost use Rattle.tb_undo.specs.Tasks.{seen_row};

    ghost Value = { Standing };

    ghost view = { λ s. standing_of (seen_row s.row.now) };
}

impl<'a> Standing<'a> {
    #[inline(always)]
    pub(crate) fn of(row: &'a Row, place: usize) -> Standing<'a>
        ensures { result ≡ standing_of (seen_row row.now) }
    {
        Standing { row, place }
    }

    /// Where the task's row is looked for first.
    #[inline(always)]
    pub(crate) fn row_place(&self) -> usize {
        self.place
    }

    /// The line at which the task is.
    #[inline(always)]
    pub fn at(&self) -> u32
        ensures { result ≡ self.now.at }
    {
        self.row.at
    }

    /// How many steps the task has executed.
    #[inline(always)]
    pub fn steps(&self) -> u32
        ensures { result ≡ self.now.steps }
    {
        self.row.steps
    }

    /// The task's registers.
    #[inline(always)]
    pub fn regs(&self) -> &'a [i64; 16]
        ensures { result.now ≡ self.now.regs }
    {
        &self.row.regs
    }
}
