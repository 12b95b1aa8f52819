//! Lines of steps, read.

use std::alloc::{AllocError, Global};
use tb_model::{
    Action, Args, Event, Item, Items, Kind, Place, Spawn, Spawned, StepId, TaskName, WaitItems,
};

/// A step's ordinal and what it did, or nothing where the words are no step's line. A body is known
/// by its first letter.
pub(crate) fn step(alloc: Global, words: &[&str]) -> Result<Option<(StepId, Event)>, AllocError> {
    let [first, others @ ..] = words else {
        return Ok(None);
    };
    let Ok(id) = StepId::parse(alloc, first.as_bytes()) else {
        return Ok(None);
    };
    let Some(action) = action(alloc, others)? else {
        return Ok(None);
    };
    let task = id.task.clone()?;
    Ok(Some((id, Event { task, action })))
}

fn action(alloc: Global, words: &[&str]) -> Result<Option<Action>, AllocError> {
    let simple = match words {
        ["start"] => Some(Action::Start),
        ["open"] => Some(Action::Open),
        ["close"] => Some(Action::Close),
        ["end"] => Some(Action::End),
        ["fault"] => Some(Action::Fault),
        ["test", answer] => Some(Action::Test {
            yes: *answer == "yes",
        }),
        ["print", value] => value.parse().ok().map(|value| Action::Print { value }),
        ["let", reg, value] => assigned(*reg, *value),
        ["load", reg, cell, value] => loaded(*reg, *cell, *value),
        ["store", cell, value] => stored(*cell, *value),
        _ => None,
    };
    match words {
        ["wait", clauses @ ..] => wait(alloc, clauses),
        ["spawn", child, body, clauses @ ..] => spawn(alloc, *child, *body, clauses),
        _ => Ok(simple),
    }
}

fn wait(alloc: Global, words: &[&str]) -> Result<Option<Action>, AllocError> {
    let Some(clauses) = clauses_of(alloc, words)? else {
        return Ok(None);
    };
    let items = WaitItems::new(alloc, clauses.items)?;
    Ok(Some(Action::Wait { items }))
}

fn register(word: &str) -> Option<u8> {
    word.strip_prefix('r')?.parse().ok()
}

fn assigned(reg: &str, value: &str) -> Option<Action> {
    Some(Action::Let {
        reg: register(reg)?,
        value: value.parse().ok()?,
    })
}

fn loaded(reg: &str, cell: &str, value: &str) -> Option<Action> {
    Some(Action::Load {
        reg: register(reg)?,
        cell: cell.parse().ok()?,
        value: value.parse().ok()?,
    })
}

fn stored(cell: &str, value: &str) -> Option<Action> {
    Some(Action::Store {
        cell: cell.parse().ok()?,
        value: value.parse().ok()?,
    })
}

fn spawn(
    alloc: Global,
    child: &str,
    body: &str,
    clauses: &[&str],
) -> Result<Option<Action>, AllocError> {
    let Ok(child) = TaskName::parse(alloc, child.as_bytes()) else {
        return Ok(None);
    };
    let Some(first) = body.as_bytes().first() else {
        return Ok(None);
    };
    let Some(clauses) = clauses_of(alloc, clauses)? else {
        return Ok(None);
    };
    let spawn = Spawn {
        child,
        body: u32::from(*first),
        args: clauses.args,
        items: clauses.items,
        deferred: clauses.deferred,
    };
    Ok(Some(Action::Spawn(Spawned::new(alloc, spawn)?)))
}

#[derive(Drop)]
struct Clauses {
    args: Args,
    items: Items,
    deferred: bool,
}

/// What is after the body's name: arguments, items, and whether the task is deferred.
fn clauses_of(alloc: Global, words: &[&str]) -> Result<Option<Clauses>, AllocError> {
    let mut args = Args::new(alloc);
    let mut items = Items::new(alloc);
    let mut deferred = true;
    let mut behind_depend = false;
    let mut kind = None;
    for word in words {
        if *word == "depend" {
            behind_depend = true;
        } else if *word == "undeferred" {
            deferred = false;
        } else if behind_depend {
            behind_depend = false;
            kind = kind_of(*word);
        } else if let Some(found) = kind {
            let Some(place) = place(*word) else {
                return Ok(None);
            };
            items.push(Item { kind: found, place })?;
            kind = None;
        } else {
            let Ok(arg) = word.parse::<i64>() else {
                return Ok(None);
            };
            args.push(arg)?;
        }
    }
    Ok(Some(Clauses {
        args,
        items,
        deferred,
    }))
}

fn kind_of(word: &str) -> Option<Kind> {
    match word {
        "in" => Some(Kind::In),
        "out" => Some(Kind::Out),
        "inout" => Some(Kind::Inout),
        "mutexinoutset" => Some(Kind::Mutexinoutset),
        "inoutset" => Some(Kind::Inoutset),
        _ => None,
    }
}

fn place(word: &str) -> Option<Place> {
    if word == "all" {
        return Some(Place::All);
    }
    word.parse().ok().map(|cell| Place::Cell(cell))
}
