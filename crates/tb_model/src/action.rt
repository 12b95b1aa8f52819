//! What a step did.

ghost use Rattle.std.specs.Prelude.{◌≡◌};
ghost use Rattle.tb_model.specs.Facts;
ghost use Rattle.tb_model.specs.Needs;

use crate::name::TaskName;
use crate::spawned::Spawned;
use crate::wait_items::WaitItems;
use std::mem::size_of;

/// What one step of a task did, with the values that it read, wrote, printed or passed.
#[derive(Clone, Debug, Drop)]
pub enum Action {
    /// The task began.
    Start,
    /// A register was given a value.
    Let { reg: u8, value: i64 },
    /// A register was given the value of a cell.
    Load { reg: u8, cell: u32, value: i64 },
    /// A cell was given a value.
    Store { cell: u32, value: i64 },
    /// A value was printed.
    Print { value: i64 },
    /// A child was generated.
    Spawn(Spawned),
    /// A `taskwait` was passed.
    Wait { items: WaitItems },
    /// A `taskgroup` was entered.
    Open,
    /// The end of a `taskgroup` was passed.
    Close,
    /// A test of an `if` or a `while` was made.
    Test { yes: bool },
    /// The task completed.
    End,
    /// An address was none of the cells': the task is over, and did nothing else.
    Fault,
}

const _: () = prove!(size_of::<Action>() == 16);

impl Action {
    /// Whether the task is over with this: a fault is an end.
    pub fn is_end(&self) -> bool
        ensures { result ≡ Facts.is_end self.now }
    {
        matches!(self, Action::End | Action::Fault)
    }

    /// Whether the task begins with this.
    pub fn is_start(&self) -> bool
        ensures { result ≡ Facts.is_start self.now }
    {
        matches!(self, Action::Start)
    }

    /// Whether this generates the task.
    pub fn is_spawn_of(&self, t: &TaskName) -> bool
        ensures { result ≡ Facts.is_spawn_of t.now self.now }
    {
        match self {
            Action::Spawn(spawned) => spawned.get().child == *t,
            _ => false,
        }
    }

    /// Whether this prints.
    pub fn is_print(&self) -> bool
        ensures { result ≡ Facts.is_print self.now }
    {
        matches!(self, Action::Print { .. })
    }

    /// Whether both touch one cell, and at least one of them stores.
    pub fn conflicts_with(&self, other: &Action) -> bool
        ensures { result ≡ Needs.conflicts self.now other.now }
    {
        match self {
            Action::Store { cell, .. } => other.touches(*cell),
            Action::Load { cell, .. } => other.is_store_to(*cell),
            _ => false,
        }
    }

    fn is_store_to(&self, cell: u32) -> bool
        ensures { result ≡ Facts.is_store_to cell self.now }
    {
        match self {
            Action::Store { cell: stored, .. } => cell == *stored,
            _ => false,
        }
    }

    fn touches(&self, cell: u32) -> bool
        ensures { result ≡ Facts.touches cell self.now }
    {
        match self {
            Action::Load { cell: loaded, .. } => cell == *loaded,
            Action::Store { cell: stored, .. } => cell == *stored,
            _ => false,
        }
    }
}
