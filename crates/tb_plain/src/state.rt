//! The state that a history leaves.

ghost use Rattle.std.specs.Prelude.{◌≡◌, IfOk, option_copied};
ghost use Rattle.tb_model.specs.State;
ghost use Rattle.tb_plain.specs.Statuses.{named};

use crate::facts::{covers, has_ended, is_spawned, own};
use crate::own_actions::{holds, is_member, is_member_of};
use crate::status::Status;
use std::alloc::{AllocError, Global};
use tb_model::{Action, Event, Item, TaskName};

/// How far the task of these actions is.
pub fn status_of(acts: &[Action]) -> Status
    ensures { named result ≡ State.status_of acts.now }
{
    match acts {
        [] => Status::Pending,
        [newest, ..] => match newest {
            Action::End => Status::Ended,
            Action::Fault => Status::Faulted,
            _ => Status::Running,
        },
    }
}

/// The values that were printed, the newest first.
pub fn printed(alloc: Global, history: &[Event]) -> Result<Vec<i64>, AllocError>
    ensures { IfOk result (λ numbers. numbers.items ≡ State.printed history.now) }
{
    match history {
        [] => Ok(Vec::new(alloc)),
        [newest, front @ ..] => {
            let mut numbers = printed(alloc, front)?;
            match &newest.action {
                Action::Print { value } => numbers.insert(0, *value)?,
                _ => {}
            }
            Ok(numbers)
        }
    }
}

/// The action that generated the task.
pub fn spawn_of<'a>(history: &'a [Event], t: &TaskName) -> Option<&'a Action>
    ensures { option_copied result ≡ State.spawn_of t.now history.now }
{
    match history {
        [] => None,
        [newest, front @ ..] => {
            if newest.action.is_spawn_of(t) {
                Some(&newest.action)
            } else {
                spawn_of(front, t)
            }
        }
    }
}

/// Whether the task was generated and hasn't ended.
pub fn is_unended(history: &[Event], t: &TaskName) -> bool
    ensures { result ≡ State.is_unended history.now t.now }
{
    is_spawned(history, t) && !has_ended(history, t)
}

/// Whether `u` is an unended child of `t`.
pub fn is_unended_child(history: &[Event], t: &TaskName, u: &TaskName) -> bool
    ensures { result ≡ State.is_unended_child history.now t.now u.now }
{
    t.is_parent_of(u) && is_unended(history, u)
}

/// Whether `u` is an unended child of `t` that a `taskwait` with these items waits for.
pub fn is_unended_covered(
    alloc: Global,
    history: &[Event],
    t: &TaskName,
    items: &[Item],
    u: &TaskName,
) -> Result<bool, AllocError>
    ensures { IfOk result (λ yes. yes ≡ State.is_unended_covered history.now t.now items.now u.now) }
{
    Ok(covers(alloc, history, t, items, u)? && is_unended(history, u))
}

/// Whether `m` is an unended member of the innermost open group of `t`.
pub fn is_unended_member(
    alloc: Global,
    history: &[Event],
    t: &TaskName,
    m: &TaskName,
) -> Result<bool, AllocError>
    ensures { IfOk result (λ yes. yes ≡ State.is_unended_member history.now t.now m.now) }
{
    let acts = own(alloc, history, t)?;
    Ok(is_member(alloc, acts.as_slice(), m)? && is_unended(history, m))
}

/// Whether `m` is an unended member of the open group of the kth step of `t`.
pub fn is_unended_member_of(
    alloc: Global,
    history: &[Event],
    t: &TaskName,
    k: usize,
    m: &TaskName,
) -> Result<bool, AllocError>
    ensures { IfOk result (λ yes. yes ≡ State.is_unended_member_of history.now t.now k m.now) }
{
    let acts = own(alloc, history, t)?;
    Ok(is_member_of(alloc, k, acts.as_slice(), m)? && is_unended(history, m))
}

/// Whether `u` is the undeferred child for which `t` waits, and hasn't ended.
pub fn is_unended_undeferred(
    alloc: Global,
    history: &[Event],
    t: &TaskName,
    u: &TaskName,
) -> Result<bool, AllocError>
    ensures { IfOk result (λ yes. yes ≡ State.is_unended_undeferred history.now t.now u.now) }
{
    let acts = own(alloc, history, t)?;
    Ok(holds(acts.as_slice(), u) && !has_ended(history, u))
}
