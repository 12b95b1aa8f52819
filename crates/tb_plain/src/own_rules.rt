//! What a task's own actions allow.

ghost use Rattle.std.specs.Prelude.{◌≡◌, ◌&&◌, IfOk};
ghost use Rattle.tb_model.specs.Legal.{spawn_count};
ghost use Rattle.tb_model.specs.Names.{is_child};
ghost use Rattle.tb_plain.specs.Decided;

use crate::own_actions::{groups, spawn_count};
use std::alloc::{AllocError, Global};
use tb_model::{Action, Item, Place, TaskName};

fn is_running(acts: &[Action]) -> bool
    ensures { result ≡ Decided.is_running acts.now }
{
    match acts {
        [] => false,
        [newest, ..] => !newest.is_end(),
    }
}

fn is_place(cells: &[i64], place: Place) -> bool
    ensures { result ≡ Decided.is_place cells.now place }
{
    match place {
        Place::Cell(cell) => (cell as usize) < cells.len(),
        Place::All => true,
    }
}

fn are_places(cells: &[i64], items: &[Item]) -> bool
    ensures { result ≡ Decided.are_places cells.now items.now }
{
    items.iter().all(|item| is_place(cells, item.place))
}

/// Whether it is the ordinal after `k` that the name ends in.
fn is_behind(u: &TaskName, k: usize) -> bool
    ensures { result ≡ Decided.is_behind u.now k }
{
    match u.ordinal() {
        None => false,
        Some(n) => n > 0 && n as usize - 1 == k,
    }
}

fn is_next_child(t: &TaskName, acts: &[Action], u: &TaskName) -> bool
    ensures { result ≡ (is_child t.now u.now && Decided.is_behind u.now (spawn_count acts.now)) }
{
    t.is_parent_of(u) && is_behind(u, spawn_count(acts))
}

/// Whether a task may do this after its own actions.
pub(crate) fn continues(
    alloc: Global,
    cells: &[i64],
    t: &TaskName,
    acts: &[Action],
    action: &Action,
) -> Result<bool, AllocError>
    ensures { IfOk result (λ yes. yes ≡ Decided.continues cells.now t.now acts.now action.now) }
{
    match action {
        Action::Start => Ok(acts.is_empty()),
        Action::Let { reg, .. } => Ok(is_running(acts) && *reg < 16),
        Action::Load { reg, cell, .. } => {
            Ok(is_running(acts) && (*reg < 16 && (*cell as usize) < cells.len()))
        }
        Action::Store { cell, .. } => Ok(is_running(acts) && (*cell as usize) < cells.len()),
        Action::Spawn(spawned) => {
            let spawn = spawned.get();
            Ok(
                is_running(acts)
                    && (is_next_child(t, acts, &spawn.child)
                        && (spawn.args.as_slice().len() <= 16
                            && are_places(cells, spawn.items.as_slice()))),
            )
        }
        Action::Wait { items } => Ok(is_running(acts) && are_places(cells, items.as_slice())),
        Action::Close => {
            let opened = groups(alloc, acts)?;
            Ok(is_running(acts) && !opened.is_empty())
        }
        _ => Ok(is_running(acts)),
    }
}
