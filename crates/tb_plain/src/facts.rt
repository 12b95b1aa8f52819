//! What a history says of its tasks and cells.

ghost use Rattle.std.specs.Prelude.{◌≡◌, IfOk, reverse};
ghost use Rattle.std.specs.List.{list_any};
ghost use Rattle.tb_model.specs.Facts;

use std::alloc::{AllocError, Global};
use tb_model::{Action, Event, Item, TaskName, some_apart, some_before};

/// The events of a history that is listed from the oldest, from the newest.
pub fn newest_first(alloc: Global, events: &[Event]) -> Result<Vec<Event>, AllocError>
    ensures { IfOk result (λ history. history.items ≡ reverse events.now) }
{
    let mut history = Vec::new(alloc);
    for event in events {
        history.insert(0, copy_of(event)?)?;
    }
    Ok(history)
}

fn copy_of(event: &Event) -> Result<Event, AllocError>
    ensures { IfOk result (λ copy. copy ≡ event.now) }
{
    let task = event.task.clone()?;
    let action = event.action.clone()?;
    Ok(Event { task, action })
}

/// Whether the task has started.
pub fn has_started(history: &[Event], t: &TaskName) -> bool
    ensures { result ≡ list_any (Facts.starts t.now) history.now }
{
    history.iter().any(|event| event.starts(t))
}

/// Whether the task has ended or faulted.
pub fn has_ended(history: &[Event], t: &TaskName) -> bool
    ensures { result ≡ list_any (Facts.ends t.now) history.now }
{
    history.iter().any(|event| event.ends(t))
}

fn is_generated(history: &[Event], t: &TaskName) -> bool
    ensures { result ≡ list_any (Facts.spawns t.now) history.now }
{
    history.iter().any(|event| event.spawns(t))
}

/// Whether the task was generated, as the root was at the beginning.
pub fn is_spawned(history: &[Event], t: &TaskName) -> bool
    ensures { result ≡ Facts.is_spawned history.now t.now }
{
    t.ordinal().is_none() || is_generated(history, t)
}

/// The actions of the task, the newest first.
pub fn own(alloc: Global, history: &[Event], t: &TaskName) -> Result<Vec<Action>, AllocError>
    ensures { IfOk result (λ acts. acts.items ≡ Facts.own t.now history.now) }
{
    match history {
        [] => Ok(Vec::new(alloc)),
        [newest, front @ ..] => {
            let mut acts = own(alloc, front, t)?;
            if newest.is_of(t) {
                acts.insert(0, newest.action.clone()?)?;
            }
            Ok(acts)
        }
    }
}

/// The value of the last store to the cell, else its first value.
pub fn last(history: &[Event], first: i64, cell: u32) -> i64
    ensures { result ≡ Facts.last first cell history.now }
{
    match history {
        [] => first,
        [newest, front @ ..] => {
            let number = last(front, first, cell);
            match &newest.action {
                Action::Store {
                    cell: stored,
                    value,
                } => if cell == *stored { *value } else { number },
                _ => number,
            }
        }
    }
}

/// The depend items of the task.
pub fn items_of(alloc: Global, history: &[Event], t: &TaskName) -> Result<Vec<Item>, AllocError>
    ensures { IfOk result (λ items. items.items ≡ Facts.items_of t.now history.now) }
{
    match history {
        [] => Ok(Vec::new(alloc)),
        [newest, front @ ..] => {
            let mut items = items_for(alloc, t, &newest.action)?;
            let others = items_of(alloc, front, t)?;
            items.extend_from_slice(others.as_slice())?;
            Ok(items)
        }
    }
}

fn items_for(alloc: Global, t: &TaskName, action: &Action) -> Result<Vec<Item>, AllocError>
    ensures { IfOk result (λ items. items.items ≡ Facts.items_for t.now action.now) }
{
    match action {
        Action::Spawn(spawned) => {
            let spawn = spawned.get();
            if spawn.child == *t {
                Vec::from_slice(alloc, spawn.items.as_slice())
            } else {
                Ok(Vec::new(alloc))
            }
        }
        _ => Ok(Vec::new(alloc)),
    }
}

/// Whether `u` is a sibling that was generated before `t`, and `t` depends on it.
pub fn before(
    alloc: Global,
    history: &[Event],
    u: &TaskName,
    t: &TaskName,
) -> Result<bool, AllocError>
    ensures { IfOk result (λ yes. yes ≡ Facts.before history.now u.now t.now) }
{
    let new = items_of(alloc, history, t)?;
    let old = items_of(alloc, history, u)?;
    Ok(u.is_elder_of(t) && some_before(new.as_slice(), old.as_slice()))
}

/// Whether `u` and `t` are siblings that exclude each other.
pub fn apart(
    alloc: Global,
    history: &[Event],
    u: &TaskName,
    t: &TaskName,
) -> Result<bool, AllocError>
    ensures { IfOk result (λ yes. yes ≡ Facts.apart history.now u.now t.now) }
{
    let of_t = items_of(alloc, history, t)?;
    let of_u = items_of(alloc, history, u)?;
    Ok(
        (u.is_elder_of(t) && some_apart(of_t.as_slice(), of_u.as_slice()))
            || (t.is_elder_of(u) && some_apart(of_u.as_slice(), of_t.as_slice())),
    )
}

/// Whether a `taskwait` of `t` with these items waits for `u`.
pub fn covers(
    alloc: Global,
    history: &[Event],
    t: &TaskName,
    items: &[Item],
    u: &TaskName,
) -> Result<bool, AllocError>
    ensures { IfOk result (λ yes. yes ≡ Facts.covers history.now t.now items.now u.now) }
{
    let old = items_of(alloc, history, u)?;
    Ok(t.is_parent_of(u) && (items.is_empty() || some_before(items, old.as_slice())))
}
