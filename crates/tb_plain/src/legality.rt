//! Which histories are legal.

ghost use Rattle.std.specs.Prelude.{◌≡◌, ◌↔◌, IfOk, IsTrue};
ghost use Rattle.std.specs.List.{list_all};
ghost use Rattle.tb_model.specs.Legal.{MayFollow, Legal};
ghost use Rattle.tb_plain.specs.Decided;

use crate::facts::{apart, before, covers, has_ended, has_started, is_spawned, last, own};
use crate::names::Names;
use crate::own_actions::is_member;
use crate::own_rules::continues;
use crate::records::first_number;
use crate::state::is_unended;
use std::alloc::{AllocError, Global};
use tb_model::{Action, Event, Item, TaskName};

/// The tasks that the history generates, and the root.
fn everyone(alloc: Global, history: &[Event]) -> Result<Names, AllocError>
    ensures { IfOk result (λ names. names ≡ Decided.everyone history.now) }
{
    match history {
        [] => {
            let mut names = Names::new(alloc);
            names.push_front(TaskName::root(alloc))?;
            Ok(names)
        }
        [newest, front @ ..] => {
            let mut names = everyone(alloc, front)?;
            match &newest.action {
                Action::Spawn(spawned) => names.push_front(spawned.get().child.clone()?)?,
                _ => {}
            }
            Ok(names)
        }
    }
}

fn all_past(
    alloc: Global,
    history: &[Event],
    t: &TaskName,
    names: &[TaskName],
) -> Result<bool, AllocError>
    ensures { IfOk result (λ yes. yes ≡ list_all (Decided.is_past history.now t.now) names.now) }
{
    match names {
        [] => Ok(true),
        [u, others @ ..] => Ok(
            (!before(alloc, history, u, t)? || has_ended(history, u))
                && all_past(alloc, history, t, others)?,
        ),
    }
}

fn all_aside(
    alloc: Global,
    history: &[Event],
    t: &TaskName,
    names: &[TaskName],
) -> Result<bool, AllocError>
    ensures { IfOk result (λ yes. yes ≡ list_all (Decided.is_aside history.now t.now) names.now) }
{
    match names {
        [] => Ok(true),
        [u, others @ ..] => Ok(
            (!apart(alloc, history, u, t)? || (!has_started(history, u) || has_ended(history, u)))
                && all_aside(alloc, history, t, others)?,
        ),
    }
}

fn all_awaited(
    alloc: Global,
    history: &[Event],
    t: &TaskName,
    items: &[Item],
    names: &[TaskName],
) -> Result<bool, AllocError>
    ensures { IfOk result (λ yes. yes ≡ list_all (Decided.is_awaited history.now t.now items.now) names.now) }
{
    match names {
        [] => Ok(true),
        [u, others @ ..] => Ok(
            (!covers(alloc, history, t, items, u)? || !is_unended(history, u))
                && all_awaited(alloc, history, t, items, others)?,
        ),
    }
}

fn all_left(
    alloc: Global,
    history: &[Event],
    acts: &[Action],
    names: &[TaskName],
) -> Result<bool, AllocError>
    ensures { IfOk result (λ yes. yes ≡ list_all (Decided.is_left history.now acts.now) names.now) }
{
    match names {
        [] => Ok(true),
        [m, others @ ..] => Ok(
            (!is_member(alloc, acts, m)? || !is_unended(history, m))
                && all_left(alloc, history, acts, others)?,
        ),
    }
}

fn may_start(alloc: Global, history: &[Event], t: &TaskName) -> Result<bool, AllocError>
    ensures { IfOk result (λ yes. yes ≡ Decided.may_start history.now t.now) }
{
    let names = everyone(alloc, history)?;
    let past = all_past(alloc, history, t, names.as_slice())?;
    let aside = all_aside(alloc, history, t, names.as_slice())?;
    Ok(is_spawned(history, t) && (past && aside))
}

fn is_timely(
    alloc: Global,
    cells: &[i64],
    history: &[Event],
    t: &TaskName,
    action: &Action,
) -> Result<bool, AllocError>
    ensures { IfOk result (λ yes. yes ≡ Decided.is_timely cells.now history.now t.now action.now) }
{
    match action {
        Action::Start => may_start(alloc, history, t),
        Action::Load { cell, value, .. } => {
            Ok(*value == last(history, first_number(cells, *cell), *cell))
        }
        Action::Wait { items } => {
            let names = everyone(alloc, history)?;
            all_awaited(alloc, history, t, items.as_slice(), names.as_slice())
        }
        Action::Close => {
            let names = everyone(alloc, history)?;
            let acts = own(alloc, history, t)?;
            all_left(alloc, history, acts.as_slice(), names.as_slice())
        }
        _ => Ok(true),
    }
}

fn is_resumed(history: &[Event], acts: &[Action]) -> bool
    ensures { result ≡ Decided.is_resumed history.now acts.now }
{
    match acts {
        [] => true,
        [newest, ..] => match newest {
            Action::Spawn(spawned) => {
                let spawn = spawned.get();
                spawn.deferred || has_ended(history, &spawn.child)
            }
            _ => true,
        },
    }
}

fn follows(alloc: Global, cells: &[i64], history: &[Event], v: &Event) -> Result<bool, AllocError>
    ensures { IfOk result (λ yes. yes ≡ Decided.may_follow cells.now history.now v.now) }
{
    let acts = own(alloc, history, &v.task)?;
    let continued = continues(alloc, cells, &v.task, acts.as_slice(), &v.action)?;
    let timely = is_timely(alloc, cells, history, &v.task, &v.action)?;
    Ok(continued && (is_resumed(history, acts.as_slice()) && timely))
}

fn all_follow(alloc: Global, cells: &[i64], history: &[Event]) -> Result<bool, AllocError>
    ensures { IfOk result (λ yes. yes ≡ Decided.is_legal cells.now history.now) }
{
    match history {
        [] => Ok(true),
        [newest, front @ ..] => {
            Ok(all_follow(alloc, cells, front)? && follows(alloc, cells, front, newest)?)
        }
    }
}

/// Whether the event may be the next one after the history.
pub fn may_follow(
    alloc: Global,
    cells: &[i64],
    history: &[Event],
    v: &Event,
) -> Result<bool, AllocError>
    ensures { IfOk result (λ yes. IsTrue yes ↔ MayFollow cells.now history.now v.now) }
{
    follows(alloc, cells, history, v)
}

/// Whether the history is legal with these cells.
pub fn is_legal(alloc: Global, cells: &[i64], history: &[Event]) -> Result<bool, AllocError>
    ensures { IfOk result (λ yes. IsTrue yes ↔ Legal cells.now history.now) }
{
    all_follow(alloc, cells, history)
}
