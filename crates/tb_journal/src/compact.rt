//! An entry, as it is in a journal.

ghost use Rattle.std.specs.Prelude.{◌≡◌, [], IfOk, slice_index_or};
ghost use Rattle.tb_model.specs.declared.entry.Entry.TheVariants.{Opened, Rolled};
ghost use Rattle.tb_journal.specs.Compact.{entry_of, step, IsNumbered};
ghost use Rattle.tb_journal.specs.Journals.{is_step, seat_of};

use crate::copying::copy_of;
use crate::seat::seat_of;
use std::alloc::{AllocError, Global};
use std::mem::size_of;
use tb_model::{Action, Entry, Event, Items, Spawned, StepId, TaskName, WaitItems};

/// An entry in few bytes, by what was done; whose it is the journal says. Only the opening and the
/// entries of a seat above 255, which no run has, are stored out of line: `Apart` has their index.
#[derive(Drop)]
pub(crate) enum Compact {
    Apart(usize),
    Started {
        seat: u8,
    },
    Set {
        reg: u8,
        seat: u8,
        value: i64,
    },
    Loaded {
        reg: u8,
        seat: u8,
        cell: u32,
        value: i64,
    },
    Stored {
        seat: u8,
        cell: u32,
        value: i64,
    },
    Printed {
        seat: u8,
        value: i64,
    },
    Generated {
        seat: u8,
        spawn: Spawned,
    },
    /// A `taskwait` without items was passed.
    Waited {
        seat: u8,
    },
    /// A `taskwait` with items was passed.
    WaitedFor {
        seat: u8,
        items: WaitItems,
    },
    /// A `taskgroup` was entered.
    Entered {
        seat: u8,
    },
    /// The end of a `taskgroup` was passed.
    Left {
        seat: u8,
    },
    Tested {
        yes: bool,
        seat: u8,
    },
    Ended {
        seat: u8,
    },
    Faulted {
        seat: u8,
    },
    RolledBack {
        seat: u8,
        k: u32,
    },
}

const _: () = prove!(size_of::<Compact>() == 16);

impl Compact {
    /// The task's entry. `apart` has the entries that are stored out of line.
    pub fn entry(
        &self,
        alloc: Global,
        apart: &[Entry],
        task: &TaskName,
    ) -> Result<Entry, AllocError>
        ensures { IfOk result (λ e. e ≡ entry_of apart.now task.now self.now) }
    {
        match self {
            Compact::Apart(number) => nth(apart, *number),
            Compact::Started { seat } => stepped(*seat, task, Action::Start),
            Compact::Generated { seat, spawn } => {
                let spawn = spawn.clone()?;
                stepped(*seat, task, Action::Spawn(spawn))
            }
            Compact::Waited { seat } => {
                let items = WaitItems::new(alloc, Items::new(alloc))?;
                stepped(*seat, task, Action::Wait { items })
            }
            Compact::WaitedFor { seat, items } => {
                let items = items.clone()?;
                stepped(*seat, task, Action::Wait { items })
            }
            Compact::Entered { seat } => stepped(*seat, task, Action::Open),
            Compact::Left { seat } => stepped(*seat, task, Action::Close),
            Compact::Tested { yes, seat } => { stepped(*seat, task, Action::Test { yes: *yes }) }
            Compact::Ended { seat } => stepped(*seat, task, Action::End),
            Compact::Faulted { seat } => stepped(*seat, task, Action::Fault),
            Compact::RolledBack { seat, k } => rolled(*seat, task, *k),
            _ => self.numbered(task),
        }
    }

    /// The entry of a step that has a number.
    fn numbered(&self, task: &TaskName) -> Result<Entry, AllocError>
        requires { IsNumbered self.now }
        ensures { IfOk result (λ e. e ≡ entry_of [] task.now self.now) }
    {
        match *self {
            Compact::Set { reg, seat, value } => stepped(seat, task, Action::Let { reg, value }),
            Compact::Loaded {
                reg,
                seat,
                cell,
                value,
            } => stepped(seat, task, Action::Load { reg, cell, value }),
            Compact::Stored { seat, cell, value } => stepped(
                seat,
                task,
                Action::Store { cell, value },
            ),
            Compact::Printed { seat, value } => stepped(seat, task, Action::Print { value }),
            _ => unreachable!(),
        }
    }

    /// The seat that made the entry.
    pub fn seat(&self, apart: &[Entry]) -> u32
        ensures { result ≡ seat_of (entry_of apart.now [] self.now) }
    {
        match self {
            Compact::Apart(number) => match apart.get(*number) {
                Some(entry) => seat_of(entry),
                None => 0,
            },
            Compact::Started { seat, .. }
            | Compact::Set { seat, .. }
            | Compact::Loaded { seat, .. }
            | Compact::Stored { seat, .. }
            | Compact::Printed { seat, .. }
            | Compact::Generated { seat, .. }
            | Compact::Waited { seat, .. }
            | Compact::WaitedFor { seat, .. }
            | Compact::Entered { seat, .. }
            | Compact::Left { seat, .. }
            | Compact::Tested { seat, .. }
            | Compact::Ended { seat, .. }
            | Compact::Faulted { seat, .. }
            | Compact::RolledBack { seat, .. } => *seat as u32,
        }
    }

    /// Whether the entry is that of a step.
    pub fn is_step(&self, apart: &[Entry]) -> bool
        ensures { result ≡ is_step (entry_of apart.now [] self.now) }
    {
        match self {
            Compact::Apart(number) => match apart.get(*number) {
                Some(entry) => matches!(entry, Entry::Stepped { .. }),
                None => false,
            },
            Compact::RolledBack { .. } => false,
            _ => true,
        }
    }
}

fn nth(apart: &[Entry], number: usize) -> Result<Entry, AllocError>
    ensures { IfOk result (λ e. e ≡ slice_index_or apart.now number Opened) }
{
    match apart.get(number) {
        Some(entry) => copy_of(entry),
        None => Ok(Entry::Opened),
    }
}

fn stepped(seat: u8, task: &TaskName, action: Action) -> Result<Entry, AllocError>
    ensures { IfOk result (λ e. e ≡ step seat task.now action) }
{
    let task = task.clone()?;
    Ok(Entry::Stepped {
        seat: seat as u32,
        event: Event { task, action },
    })
}

fn rolled(seat: u8, task: &TaskName, k: u32) -> Result<Entry, AllocError>
    ensures { IfOk result (λ e. e ≡ Rolled seat (record { task = task.now; k = k })) }
{
    let task = task.clone()?;
    Ok(Entry::Rolled {
        seat: seat as u32,
        id: StepId { task, k },
    })
}
