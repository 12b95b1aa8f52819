//! What an action says that isn't so.

ghost use Rattle.std.specs.Prelude.{◌≡◌, ◌<◌, IfOk, IsTrue, OnErr, suc};
ghost use Rattle.tb_model.specs.Names.{child, same_name};
ghost use Rattle.tb_model.specs.Facts.{is_spawned};
ghost use Rattle.tb_plan.specs.Plans.{names_allowed};
ghost use Rattle.tb_verdict.specs.Judged.{AreOfRun, ForRun};
ghost use Rattle.tb_verdict.specs.Memory.{IsLongRefusal};
ghost use Rattle.tb_verdict.specs.Refusals.{misnamed, misread, unfit, unopened};

use crate::refusal::Refusal;
use crate::run_state::RunState;
use crate::values::value_of;
use std::alloc::AllocError;
use tb_model::{Action, TaskName};

/// Why a load may not have this value, where its cell has that one.
#[inline(always)]
fn misread(value: i64, number: i64) -> Option<Refusal>
    ensures { result ≡ misread value number }
{
    if value == number {
        None
    } else {
        Some(Refusal::Reads { number })
    }
}

/// Whether the name is that of the task's next child, after so many.
fn is_next_child(task: &TaskName, name: &TaskName, children: u32) -> bool
    ensures { result ≡ same_name name.now (child task.now (suc children)) }
{
    match name.ordinal() {
        Some(n) => u64::from(n) == u64::from(children) + 1 && task.is_parent_of(name),
        None => false,
    }
}

/// Why a child may not have this name, after so many of the task's.
fn misnamed(task: &TaskName, name: &TaskName, children: u32) -> Result<Option<Refusal>, AllocError>
    requires { children < 4294967295 }
    ensures ok { IfOk result (λ r. r ≡ misnamed name.now (child task.now (suc children))) }
    ensures memory { OnErr result (IsLongRefusal (misnamed name.now (child task.now (suc children)))) }
{
    if is_next_child(task, name, children) {
        return Ok(None);
    }
    Ok(Some(Refusal::Child {
        due: task.child(children + 1)?,
    }))
}

/// Why no group may be closed, where so many are open.
fn unopened(groups: usize) -> Option<Refusal>
    ensures { result ≡ unopened groups }
{
    match groups {
        0 => Some(Refusal::NoGroup),
        _ => None,
    }
}

/// What the action of a task says that isn't so.
#[inline(always)]
pub fn unfit(
    state: &RunState,
    task: &TaskName,
    action: &Action,
) -> Result<Option<Refusal>, AllocError>
    requires run { AreOfRun state.now }
    requires there { ForRun state.now (λ first H. IsTrue (is_spawned H task.now)) }
    requires allowed { IsTrue (names_allowed state.now.cells action.now) }
    ensures ok { IfOk result (λ r. ForRun state.now (λ first H. r ≡ unfit first H task.now action.now)) }
    ensures memory { OnErr result (ForRun state.now (λ first H. IsLongRefusal (unfit first H task.now action.now))) }
{
    match action {
        Action::Load { cell, value, .. } => Ok(misread(*value, value_of(&state.values, *cell))),
        Action::Spawn(spawned) => {
            let children = state.tables.children(task).unwrap_or(0);
            misnamed(task, &spawned.get().child, children)
        }
        Action::Close => Ok(unopened(state.tables.groups(task))),
        _ => Ok(None),
    }
}
