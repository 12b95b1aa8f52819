//! How an entry is put into few bytes.

ghost use Rattle.std.specs.Prelude.{◌≡◌, IfOk, IsFalse};
ghost use Rattle.tb_model.specs.Names.{Name};
ghost use Rattle.tb_model.specs.declared.entry.Entry.TheVariants.{Stepped};
ghost use Rattle.tb_journal.specs.Compact.{IsThere, StandsFor, entry_in, step};
ghost use Rattle.tb_journal.specs.Journals.{is_long, stands_apart};

use crate::compact::Compact;
use tb_model::{Action, Entry, Event, StepId, TaskName};

/// Whether a step of the seat with this action has to be handed over whole, and so is copied before
/// it is taken: the entry of a spawn and of a `taskwait` with items shares the action's memory, and
/// that of a seat above 255, which no run has, is stored out of line. `push_short` reads the others
/// off the action where it is.
#[inline(always)]
pub fn stands_apart(seat: u32, action: &Action) -> bool
    ensures { result ≡ stands_apart seat action.now }
{
    256 <= seat || is_long(action)
}

/// Whether the action has a name or a list of its own.
#[inline(always)]
fn is_long(action: &Action) -> bool
    ensures { result ≡ is_long action.now }
{
    match action {
        Action::Spawn(_) => true,
        Action::Wait { items } => !items.as_slice().is_empty(),
        _ => false,
    }
}

/// The entry in few bytes, with its task; itself, where it is stored out of line. Nothing is
/// copied.
pub(crate) fn short(entry: Entry) -> Result<(TaskName, Compact), Entry>
    ensures ok { IfOk result (λ r. StandsFor entry r.0 r.1) }
    ensures is { entry_in result ≡ entry }
{
    match entry {
        Entry::Opened => Err(Entry::Opened),
        Entry::Stepped { seat, event } => short_step(seat, event),
        Entry::Rolled { seat, id } => {
            let Ok(seat) = u8::try_from(seat) else {
                return Err(Entry::Rolled { seat, id });
            };
            let StepId { task, k } = id;
            Ok((task, Compact::RolledBack { seat, k }))
        }
    }
}

/// The entry of a step in few bytes, with its task; itself for a seat above 255, where it is stored
/// out of line. Nothing is copied.
pub(crate) fn short_step(seat: u32, event: Event) -> Result<(TaskName, Compact), Entry>
    ensures ok { IfOk result (λ r. StandsFor (Stepped seat event) r.0 r.1) }
    ensures is { entry_in result ≡ Stepped seat event }
{
    let Ok(seat) = u8::try_from(seat) else {
        return Err(Entry::Stepped { seat, event });
    };
    let Event { task, action } = event;
    match action {
        Action::Spawn(spawn) => Ok((task, Compact::Generated { seat, spawn })),
        Action::Wait { items } if !items.as_slice().is_empty() => {
            Ok((task, Compact::WaitedFor { seat, items }))
        }
        other => Ok(short_for(seat, task, &other)),
    }
}

/// The entry of a step in few bytes, with its task. Its action has no name or list of its own, so
/// it is read where it is.
fn short_for(seat: u8, task: TaskName, action: &Action) -> (TaskName, Compact)
    requires { IsFalse (is_long action.now) }
    ensures { StandsFor (step seat task action.now) result.0 result.1 }
{
    let compact = short_action(seat, action);
    (task, compact)
}

/// What the entry of a step has besides its task. The action has no name or list of its own.
#[inline(always)]
pub(crate) fn short_action(seat: u8, action: &Action) -> Compact
    requires { IsFalse (is_long action.now) }
    ensures stands { (t : Name) → StandsFor (step seat t action.now) t result }
    ensures there { IsThere 0 result }
{
    match *action {
        Action::Start => Compact::Started { seat },
        Action::Let { reg, value } => Compact::Set { reg, seat, value },
        Action::Load { reg, cell, value } => Compact::Loaded {
            reg,
            seat,
            cell,
            value,
        },
        Action::Store { cell, value } => Compact::Stored { seat, cell, value },
        Action::Print { value } => Compact::Printed { seat, value },
        Action::Wait { .. } => Compact::Waited { seat },
        Action::Open => Compact::Entered { seat },
        Action::Close => Compact::Left { seat },
        Action::Test { yes } => Compact::Tested { yes, seat },
        Action::End => Compact::Ended { seat },
        Action::Fault => Compact::Faulted { seat },
        Action::Spawn(_) => unreachable!(),
    }
}
