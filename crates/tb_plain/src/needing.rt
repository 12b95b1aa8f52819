//! Which events need which, and what is left without one of them and all that need it.

ghost use Rattle.std.specs.Prelude.{◌≡◌, ◌||◌, IfOk};
ghost use Rattle.std.specs.List.{list_any};
ghost use Rattle.tb_model.specs.Needs;

use crate::facts::{apart, before, covers, own};
use crate::own_actions::{holds, is_member};
use std::alloc::{AllocError, Global};
use tb_model::{Action, Event, StepId, TaskName};

/// Whether the action of `t` after the history waits for the end of `u`.
fn waits_for(
    alloc: Global,
    history: &[Event],
    t: &TaskName,
    action: &Action,
    u: &TaskName,
) -> Result<bool, AllocError>
    ensures { IfOk result (λ yes. yes ≡ Needs.waits_for history.now t.now action.now u.now) }
{
    match action {
        Action::Start => Ok(before(alloc, history, u, t)? || apart(alloc, history, u, t)?),
        Action::Wait { items } => covers(alloc, history, t, items.as_slice(), u),
        Action::Close => {
            let acts = own(alloc, history, t)?;
            is_member(alloc, acts.as_slice(), u)
        }
        _ => Ok(false),
    }
}

/// Whether an event of `t` after the history comes after the end of `u`.
fn needs_end_of(
    alloc: Global,
    history: &[Event],
    t: &TaskName,
    action: &Action,
    u: &TaskName,
) -> Result<bool, AllocError>
    ensures { IfOk result (λ yes. yes ≡ Needs.needs_end_of history.now t.now action.now u.now) }
{
    let acts = own(alloc, history, t)?;
    Ok(holds(acts.as_slice(), u) || waits_for(alloc, history, t, action, u)?)
}

/// Whether `v`, which is after the history, directly needs its event `u`.
pub fn needs(alloc: Global, history: &[Event], v: &Event, u: &Event) -> Result<bool, AllocError>
    ensures { IfOk result (λ yes. yes ≡ Needs.needs history.now v.now u.now) }
{
    let for_end = needs_end_of(alloc, history, &v.task, &v.action, &u.task)?;
    Ok(
        u.is_of(&v.task)
            || (u.spawns(&v.task)
                || (v.action.conflicts_with(&u.action)
                    || ((u.action.is_end() && for_end)
                        || (v.action.is_print() && u.action.is_print())))),
    )
}

/// Whether `v` directly needs one of these events.
fn needs_some(
    alloc: Global,
    history: &[Event],
    v: &Event,
    events: &[Event],
) -> Result<bool, AllocError>
    ensures { IfOk result (λ yes. yes ≡ list_any (Needs.needs history.now v.now) events.now) }
{
    match events {
        [] => Ok(false),
        [u, others @ ..] => Ok(
            needs(alloc, history, v, u)? || needs_some(alloc, history, v, others)?,
        ),
    }
}

/// Whether `v`, which is after the history, is the step.
pub fn is_step(
    alloc: Global,
    step: &StepId,
    history: &[Event],
    v: &Event,
) -> Result<bool, AllocError>
    ensures { IfOk result (λ yes. yes ≡ Needs.is_step step.now history.now v.now) }
{
    let acts = own(alloc, history, &step.task)?;
    Ok(v.is_of(&step.task) && step.k as usize == acts.as_slice().len() + 1)
}

/// Whether `v` is the step or directly needs one of these events.
fn goes(
    alloc: Global,
    step: &StepId,
    history: &[Event],
    v: &Event,
    events: &[Event],
) -> Result<bool, AllocError>
    ensures { IfOk result (λ yes. yes ≡ (Needs.is_step step.now history.now v.now || list_any (Needs.needs history.now v.now) events.now)) }
{
    Ok(is_step(alloc, step, history, v)? || needs_some(alloc, history, v, events)?)
}

/// The step and all that need it, the newest first.
pub fn removed(alloc: Global, step: &StepId, history: &[Event]) -> Result<Vec<Event>, AllocError>
    ensures { IfOk result (λ events. events.items ≡ Needs.removed step.now history.now) }
{
    match history {
        [] => Ok(Vec::new(alloc)),
        [newest, front @ ..] => {
            let mut events = removed(alloc, step, front)?;
            if goes(alloc, step, front, newest, events.as_slice())? {
                events.insert(0, newest.clone()?)?;
            }
            Ok(events)
        }
    }
}

/// Whether `v`, which is after the history, is the step or needs it.
pub fn is_removed(
    alloc: Global,
    step: &StepId,
    history: &[Event],
    v: &Event,
) -> Result<bool, AllocError>
    ensures { IfOk result (λ yes. yes ≡ Needs.is_removed step.now history.now v.now) }
{
    let events = removed(alloc, step, history)?;
    goes(alloc, step, history, v, events.as_slice())
}

/// The history without the step and all that need it, the newest first.
pub fn without(alloc: Global, step: &StepId, history: &[Event]) -> Result<Vec<Event>, AllocError>
    ensures { IfOk result (λ events. events.items ≡ Needs.without step.now history.now) }
{
    match history {
        [] => Ok(Vec::new(alloc)),
        [newest, front @ ..] => {
            let mut events = without(alloc, step, front)?;
            if !is_removed(alloc, step, front, newest)? {
                events.insert(0, newest.clone()?)?;
            }
            Ok(events)
        }
    }
}
