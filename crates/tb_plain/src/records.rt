//! Registers, and what a step replaces.

ghost use Rattle.std.specs.Prelude.{◌≡◌, IfOk, option_copied};
ghost use Rattle.tb_model.specs.Legal.{first_number};
ghost use Rattle.tb_model.specs.Records;

use crate::facts::{last, own};
use crate::state::spawn_of;
use std::alloc::{AllocError, Global};
use tb_model::{Action, Event, TaskName};

/// The first value of the cell, 0 where there is no such cell.
pub fn first_number(cells: &[i64], cell: u32) -> i64
    ensures { result ≡ first_number cells.now cell }
{
    cells.get(cell as usize).copied().unwrap_or(0)
}

/// The value in the register of a task with these arguments and actions.
pub fn register(r: u8, args: &[i64], acts: &[Action]) -> i64
    ensures { result ≡ Records.register r args.now acts.now }
{
    match acts {
        [] => args.get(r as usize).copied().unwrap_or(0),
        [newest, front @ ..] => {
            let number = register(r, args, front);
            match newest {
                Action::Let { reg, value } => if r == *reg { *value } else { number },
                Action::Load { reg, value, .. } => if r == *reg { *value } else { number },
                _ => number,
            }
        }
    }
}

fn args_in(spawn: Option<&Action>) -> &[i64]
    ensures { result.now ≡ Records.args_in (option_copied spawn.entry) }
{
    match spawn {
        Some(Action::Spawn(spawned)) => spawned.get().args.as_slice(),
        _ => &[],
    }
}

/// The value in the register of the task.
pub fn register_of(alloc: Global, history: &[Event], t: &TaskName, r: u8) -> Result<i64, AllocError>
    ensures { IfOk result (λ number. number ≡ Records.register_of t.now r history.now) }
{
    let acts = own(alloc, history, t)?;
    Ok(register(r, args_in(spawn_of(history, t)), acts.as_slice()))
}

/// The value that the event replaces after the history: a store its cell's, a `let` or a `load` its
/// register's.
pub fn replaced_by(
    alloc: Global,
    cells: &[i64],
    history: &[Event],
    event: &Event,
) -> Result<Option<i64>, AllocError>
    ensures { IfOk result (λ number. number ≡ Records.replaced_by cells.now history.now event.now) }
{
    match &event.action {
        Action::Store { cell, .. } => Ok(Some(last(history, first_number(cells, *cell), *cell))),
        Action::Let { reg, .. } => Ok(Some(register_of(alloc, history, &event.task, *reg)?)),
        Action::Load { reg, .. } => Ok(Some(register_of(alloc, history, &event.task, *reg)?)),
        _ => Ok(None),
    }
}
