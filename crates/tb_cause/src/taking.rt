//! The keys that a step asks for.

ghost use Rattle.std.specs.Prelude.{◌≡◌, ◌≤◌, ◌&&◌, ◌||◌, ℕ, Bool, List, IfOk, IsTrue};
ghost use Rattle.std.specs.List.{list_any};
ghost use Rattle.std.specs.Option.{option_copied};
ghost use Rattle.indexmap.specs.IndexSet.{contains};
ghost use Rattle.tb_model.specs.declared.action.Action.TheVariants.{Start};
ghost use Rattle.tb_model.specs.declared.item.Item.{Item as AnItem};
ghost use Rattle.tb_model.specs.Names.{Name, same_name};
ghost use Rattle.tb_model.specs.Facts.{own, groups, innermost, is_spawned};
ghost use Rattle.tb_steps.specs.Scans.{history_of};
ghost use Rattle.tb_cause.specs.Indexes.{items_told};
ghost use Rattle.tb_cause.specs.Keys.{Key, Task, has, held_by, held_any, action_any, wait_any, items_any, item_any, kind_any, place_any, takes_any, comes_behind, kind_number};

use crate::giving::number_of;
use crate::indexed::Indexed;
use crate::keys::{Keys, has_item};
use indexmap::IndexSet;
use std::alloc::AllocError;
use tb_core::History;
use tb_model::{Action, Item, Kind, Place, TaskName};

/// Whether the task's action asks for one of the keys. It is after these stored steps, and at an
/// undeferred child if one is named; `of_task` says whether there is a key of the task.
pub(crate) fn takes_some(
    keys: &Keys,
    indexed: &Indexed<'_>,
    front: &History<'_>,
    task: &TaskName,
    action: &Action,
    held: Option<&TaskName>,
    of_task: bool,
) -> Result<bool, AllocError>
    requires there { IsTrue (is_spawned (history_of indexed.now) task.now) }
    requires held { option_copied held ≡ held_by (own task.now (history_of front.now)) }
    requires of_task { of_task ≡ has keys.now (Task task.now) }
    ensures { IfOk result (λ b.
        b ≡ takes_any (has keys.now) (items_told indexed.now) (history_of front.now)
        (record { task = task.now; action = action.now })) }
{
    if of_task
        || takes_held(keys, held)
        || takes_by_action(keys, action)
        || takes_by_wait(keys, front, task, action)
    {
        return Ok(true);
    }
    let found = takes_by_items(keys, indexed, task, action)?;
    Ok(found)
}

fn takes_held(keys: &Keys, held: Option<&TaskName>) -> bool
    ensures { result ≡ held_any (has keys.now) (option_copied held.entry) }
{
    match held {
        Some(child) => keys.ended.contains(child),
        None => false,
    }
}

fn takes_by_action(keys: &Keys, action: &Action) -> bool
    ensures { result ≡ action_any (has keys.now) action.now }
{
    match action {
        Action::Load { cell, .. } => keys.stored.contains(cell),
        Action::Store { cell, .. } => keys.touched.contains(cell),
        Action::Print { .. } => keys.printed,
        _ => false,
    }
}

fn takes_by_wait(keys: &Keys, front: &History<'_>, task: &TaskName, action: &Action) -> bool
    ensures { result ≡ wait_any (has keys.now) (history_of front.now) task.now action.now }
{
    match action {
        Action::Wait { items } => match items.as_slice() {
            [] => keys.parents.contains(task),
            _ => false,
        },
        Action::Close => takes_of_group(&keys.within, front, task),
        _ => false,
    }
}

/// Whether some child of the innermost open group is in the set.
fn takes_of_group(set: &IndexSet<TaskName>, front: &History<'_>, task: &TaskName) -> bool
    ensures { result ≡ list_any (contains same_name set.now) (innermost (groups (own task.now (history_of front.now)))) }
{
    let mut rest = front.again();
    let mut closed = 0_usize;
    let mut found = false;
    'back: while let Some((older, its_task, action)) = rest.split_newest() {
        if *its_task == *task {
            match action {
                Action::Open => {
                    if closed == 0 {
                        return found;
                    }
                    closed -= 1;
                }
                Action::Close => closed += 1,
                Action::Spawn(spawned) => {
                    if set.contains(&spawned.get().child) {
                        found = true;
                    }
                }
                _ => {}
            }
        }
        rest = older;
    }
    false
}

fn takes_by_items(
    keys: &Keys,
    indexed: &Indexed<'_>,
    task: &TaskName,
    action: &Action,
) -> Result<bool, AllocError>
    requires { IsTrue (is_spawned (history_of indexed.now) task.now) }
    ensures { IfOk result (λ b. b ≡ items_any (has keys.now) (items_told indexed.now) task.now action.now) }
{
    match action {
        Action::Start => {
            let taken = takes_at_start(keys, task, indexed.items_of(task))?;
            Ok(taken)
        }
        Action::Wait { items } => {
            let found = takes_some_item(keys, task, false, items.as_slice())?;
            Ok(found)
        }
        _ => Ok(false),
    }
}

/// Whether the start of the task, which has these items, asks for one of the keys through them: the
/// ends of siblings that they meet. The root's start takes none.
fn takes_at_start(keys: &Keys, task: &TaskName, items: &[Item]) -> Result<bool, AllocError>
    ensures { IfOk result (λ b. (I : Name → List AnItem) → I task.now ≡ items.now →
        b ≡ items_any (has keys.now) I task.now Start) }
{
    match items {
        [] => Ok(false),
        _ => match task.parent()? {
            Some(parent) => takes_some_item(keys, &parent, true, items),
            None => Ok(false),
        },
    }
}

/// Whether one of these items of a start or of a `taskwait` asks for one of the keys.
fn takes_some_item(
    keys: &Keys,
    parent: &TaskName,
    starts: bool,
    items: &[Item],
) -> Result<bool, AllocError>
    ensures { IfOk result (λ b. b ≡ list_any (item_any (has keys.now) parent.now starts) items.now) }
{
    for item in items {
        if takes_item(keys, parent, starts, *item)? {
            return Ok(true);
        }
    }
    Ok(false)
}

fn takes_item(keys: &Keys, parent: &TaskName, starts: bool, item: Item) -> Result<bool, AllocError>
    ensures { IfOk result (λ b. b ≡ item_any (has keys.now) parent.now starts item) }
{
    Ok(
        takes_kind(keys, parent, starts, item, Kind::In)?
            || takes_kind(keys, parent, starts, item, Kind::Out)?
            || takes_kind(keys, parent, starts, item, Kind::Inout)?
            || takes_kind(keys, parent, starts, item, Kind::Mutexinoutset)?
            || takes_kind(keys, parent, starts, item, Kind::Inoutset)?,
    )
}

fn takes_kind(
    keys: &Keys,
    parent: &TaskName,
    starts: bool,
    item: Item,
    old: Kind,
) -> Result<bool, AllocError>
    ensures { IfOk result (λ b. b ≡ kind_any (has keys.now) parent.now starts item old) }
{
    if !comes_behind(starts, item.kind, old) {
        return Ok(false);
    }
    takes_place(keys, parent, item.place, number_of(old))
}

fn takes_place(
    keys: &Keys,
    parent: &TaskName,
    place: Place,
    number: u32,
) -> Result<bool, AllocError>
    requires { number ≤ 12 }
    ensures { IfOk result (λ b. b ≡ place_any (has keys.now) parent.now place number) }
{
    let found = match place {
        Place::Cell(cell) => has_item(&keys.items, parent, number, cell)?,
        Place::All => has_item(&keys.items, parent, number + 1, 0)?,
    };
    if found {
        return Ok(true);
    }
    has_item(&keys.items, parent, number + 2, 0)
}

/// Whether a new item of this kind comes after an earlier one of that kind; that of a start also
/// where the two exclude each other.
pub(crate) fn comes_behind(starts: bool, new: Kind, old: Kind) -> bool
    ensures { result ≡ comes_behind starts new old }
{
    match (new, old) {
        (Kind::In, Kind::In) => false,
        (Kind::Mutexinoutset, Kind::Mutexinoutset) => starts,
        (Kind::Inoutset, Kind::Inoutset) => false,
        _ => true,
    }
}
