//! The keys that a step asks for, noted for the look at what is before it.

ghost use Rattle.std.specs.Prelude.{true, IsTrue, ◌≡◌, ◌≢◌, ◌≤◌, ◌&&◌, ◌||◌, ℕ, [], List, OnOk};
ghost use Rattle.std.specs.List.{list_any};
ghost use Rattle.std.specs.Option.{option_copied};
ghost use Rattle.indexmap.specs.IndexSet.{contains};
ghost use Rattle.tb_model.specs.declared.action.Action.TheVariants.{Close, Start};
ghost use Rattle.tb_model.specs.declared.item.Item.{Item as AnItem};
ghost use Rattle.tb_model.specs.Names.{Name, same_name};
ghost use Rattle.tb_model.specs.Facts.{own, groups, innermost, is_spawned};
ghost use Rattle.tb_steps.specs.Scans.{history_of};
ghost use Rattle.tb_cause.specs.Asked.{same_key, asks, group_key, new_items_key};
ghost use Rattle.tb_cause.specs.Indexes.{items_told};
ghost use Rattle.tb_cause.specs.Keys.{Key, Item as ItemKey, Task, has, held_by, held_any, action_any, wait_any, items_any, item_any, kind_any, place_any, same_item_key};

use crate::giving::number_of;
use crate::indexed::Indexed;
use crate::keys::{Keys, put, put_cell, put_item};
use crate::taking::comes_behind;
use indexmap::IndexSet;
use std::alloc::AllocError;
use tb_core::History;
use tb_model::{Action, Item, Kind, Place, TaskName};

/// Puts the keys that the task's action asks for. It is after these stored steps, and at an
/// undeferred child if one is named; where `of_task` is set, there is a key of the task.
pub(crate) fn note(
    keys: &mut Keys,
    indexed: &Indexed<'_>,
    front: &History<'_>,
    task: &TaskName,
    action: &Action,
    held: Option<&TaskName>,
    of_task: bool,
) -> Result<(), AllocError>
    requires there { IsTrue (is_spawned (history_of indexed.now) task.now) }
    requires held { option_copied held ≡ held_by (own task.now (history_of front.now)) }
    requires opened { action.now ≡ Close → groups (own task.now (history_of front.now)) ≢ [] }
    requires of_task { IsTrue of_task → has keys.old (Task task.now) ≡ true }
    ensures { OnOk result ((k : Key) → has keys.new k
        ≡ (asks (items_told indexed.now) (history_of front.now)
        (record { task = task.now; action = action.now }) k || has keys.old k)) }
{
    note_by_items(keys, indexed, task, action)?;
    note_by_wait(keys, front, task, action)?;
    note_by_action(keys, action)?;
    note_held(keys, held)?;
    note_own(keys, task, of_task)?;
    Ok(())
}

fn note_own(keys: &mut Keys, task: &TaskName, known: bool) -> Result<(), AllocError>
    requires { IsTrue known → has keys.old (Task task.now) ≡ true }
    ensures { OnOk result ((k : Key) → has keys.new k ≡ (same_key (Task task.now) k || has keys.old k)) }
{
    if known {
        return Ok(());
    }
    put(&mut keys.tasks, task)
}

fn note_held(keys: &mut Keys, held: Option<&TaskName>) -> Result<(), AllocError>
    ensures { OnOk result ((k : Key) →
        has keys.new k ≡ (held_any (λ a. same_key a k) (option_copied held.entry) || has keys.old k)) }
{
    match held {
        Some(child) => put(&mut keys.ended, child),
        None => Ok(()),
    }
}

fn note_by_action(keys: &mut Keys, action: &Action) -> Result<(), AllocError>
    ensures { OnOk result ((k : Key) →
        has keys.new k ≡ (action_any (λ a. same_key a k) action.now || has keys.old k)) }
{
    match action {
        Action::Load { cell, .. } => put_cell(&mut keys.stored, *cell),
        Action::Store { cell, .. } => put_cell(&mut keys.touched, *cell),
        Action::Print { .. } => {
            keys.printed = true;
            Ok(())
        }
        _ => Ok(()),
    }
}

fn note_by_wait(
    keys: &mut Keys,
    front: &History<'_>,
    task: &TaskName,
    action: &Action,
) -> Result<(), AllocError>
    requires opened { action.now ≡ Close → groups (own task.now (history_of front.now)) ≢ [] }
    ensures { OnOk result ((k : Key) → has keys.new k
        ≡ (wait_any (λ a. same_key a k) (history_of front.now) task.now action.now || has keys.old k)) }
{
    match action {
        Action::Wait { items } => match items.as_slice() {
            [] => put(&mut keys.parents, task),
            _ => Ok(()),
        },
        Action::Close => {
            note_members(keys, front, task)?;
            Ok(())
        }
        _ => Ok(()),
    }
}

fn note_members(keys: &mut Keys, front: &History<'_>, task: &TaskName) -> Result<(), AllocError>
    requires opened { groups (own task.now (history_of front.now)) ≢ [] }
    ensures { OnOk result ((k : Key) → has keys.new k
        ≡ (group_key (innermost (groups (own task.now (history_of front.now)))) k || has keys.old k)) }
{
    note_group(&mut keys.within, front, task)
}

/// Puts the children of the innermost open group.
fn note_group(
    set: &mut IndexSet<TaskName>,
    front: &History<'_>,
    task: &TaskName,
) -> Result<(), AllocError>
    requires opened { groups (own task.now (history_of front.now)) ≢ [] }
    ensures { OnOk result ((q : Name) → contains same_name set.new q
        ≡ (list_any (λ c. same_name c q) (innermost (groups (own task.now (history_of front.now)))) || contains same_name set.old q)) }
{
    let mut rest = front.again();
    let mut closed = 0_usize;
    'back: while let Some((older, its_task, action)) = rest.split_newest() {
        if *its_task == *task {
            match action {
                Action::Open => {
                    if closed == 0 {
                        return Ok(());
                    }
                    closed -= 1;
                }
                Action::Close => closed += 1,
                Action::Spawn(spawned) => put(set, &spawned.get().child)?,
                _ => {}
            }
        }
        rest = older;
    }
    Ok(())
}

fn note_by_items(
    keys: &mut Keys,
    indexed: &Indexed<'_>,
    task: &TaskName,
    action: &Action,
) -> Result<(), AllocError>
    requires { IsTrue (is_spawned (history_of indexed.now) task.now) }
    ensures { OnOk result ((k : Key) → has keys.new k
        ≡ (items_any (λ a. same_key a k) (items_told indexed.now) task.now action.now || has keys.old k)) }
{
    match action {
        Action::Start => note_start(keys, task, indexed.items_of(task)),
        Action::Wait { items } => {
            note_new(keys, task, false, items.as_slice())?;
            Ok(())
        }
        _ => Ok(()),
    }
}

/// Puts what the items of a task take at its start.
fn note_start(keys: &mut Keys, task: &TaskName, items: &[Item]) -> Result<(), AllocError>
    ensures { OnOk result ((k : Key) (I : Name → List AnItem) → I task.now ≡ items.now →
        has keys.new k ≡ (items_any (λ a. same_key a k) I task.now Start || has keys.old k)) }
{
    if items.is_empty() {
        return Ok(());
    }
    match task.parent()? {
        Some(parent) => {
            note_new(keys, &parent, true, items)?;
            Ok(())
        }
        None => Ok(()),
    }
}

/// Puts what these items take of those of the children of the parent.
fn note_new(
    keys: &mut Keys,
    parent: &TaskName,
    starts: bool,
    items: &[Item],
) -> Result<(), AllocError>
    ensures { OnOk result ((k : Key) → has keys.new k ≡ (new_items_key parent.now starts items.now k || has keys.old k)) }
{
    note_items(&mut keys.items, parent, starts, items)
}

/// Puts what these items of a start or of a `taskwait` take.
fn note_items(
    set: &mut IndexSet<(TaskName, u32, u32)>,
    parent: &TaskName,
    starts: bool,
    items: &[Item],
) -> Result<(), AllocError>
    ensures { OnOk result ((p : Name) (n c : ℕ) → contains same_item_key set.new (p, n, c)
        ≡ (list_any (item_any (λ a. same_key a (ItemKey p n c)) parent.now starts) items.now || contains same_item_key set.old (p, n, c))) }
{
    for item in items {
        note_item(set, parent, starts, *item)?;
    }
    Ok(())
}

fn note_item(
    set: &mut IndexSet<(TaskName, u32, u32)>,
    parent: &TaskName,
    starts: bool,
    item: Item,
) -> Result<(), AllocError>
    ensures { OnOk result ((p : Name) (n c : ℕ) → contains same_item_key set.new (p, n, c)
        ≡ (item_any (λ a. same_key a (ItemKey p n c)) parent.now starts item || contains same_item_key set.old (p, n, c))) }
{
    note_kind(set, parent, starts, item, Kind::Inoutset)?;
    note_kind(set, parent, starts, item, Kind::Mutexinoutset)?;
    note_kind(set, parent, starts, item, Kind::Inout)?;
    note_kind(set, parent, starts, item, Kind::Out)?;
    note_kind(set, parent, starts, item, Kind::In)?;
    Ok(())
}

fn note_kind(
    set: &mut IndexSet<(TaskName, u32, u32)>,
    parent: &TaskName,
    starts: bool,
    item: Item,
    old: Kind,
) -> Result<(), AllocError>
    ensures { OnOk result ((p : Name) (n c : ℕ) → contains same_item_key set.new (p, n, c)
        ≡ (kind_any (λ a. same_key a (ItemKey p n c)) parent.now starts item old || contains same_item_key set.old (p, n, c))) }
{
    if comes_behind(starts, item.kind, old) {
        note_place(set, parent, item.place, number_of(old))?;
    }
    Ok(())
}

fn note_place(
    set: &mut IndexSet<(TaskName, u32, u32)>,
    parent: &TaskName,
    place: Place,
    number: u32,
) -> Result<(), AllocError>
    requires { number ≤ 12 }
    ensures { OnOk result ((p : Name) (n c : ℕ) → contains same_item_key set.new (p, n, c)
        ≡ (place_any (λ a. same_key a (ItemKey p n c)) parent.now place number || contains same_item_key set.old (p, n, c))) }
{
    put_item(set, parent, number + 2, 0)?;
    match place {
        Place::Cell(cell) => put_item(set, parent, number, cell),
        Place::All => put_item(set, parent, number + 1, 0),
    }
}
