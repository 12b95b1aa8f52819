//! The keys that a step gives.

ghost use Rattle.std.specs.Prelude.{◌≡◌, ◌≤◌, ◌&&◌, ◌||◌, ℕ, IfOk, IsTrue, OnOk, true};
ghost use Rattle.std.specs.List.{list_any};
ghost use Rattle.indexmap.specs.IndexSet.{contains};
ghost use Rattle.tb_model.specs.Names.{Name, same_name, is_within};
ghost use Rattle.tb_model.specs.Facts.{is_spawned};
ghost use Rattle.tb_steps.specs.Scans.{history_of};
ghost use Rattle.tb_cause.specs.Asked.{action_gives, parent_gives, over_gives, place_gives, item_gives, items_give, gives_any, some_above};
ghost use Rattle.tb_cause.specs.Indexes.{items_told};
ghost use Rattle.tb_cause.specs.Keys.{Key, Task, Within, IsUpward, has, gives, own_key, action_key, over_key, items_key, item_key, place_key, kind_number, same_item_key};

use crate::indexed::Indexed;
use crate::keys::{Keys, has_item, put, put_cell, put_item};
use indexmap::IndexSet;
use std::alloc::AllocError;
use tb_model::{Action, Item, Kind, Place, TaskName};

/// Puts the keys that the task's action gives; where `of_task` is set, there is a key of the task.
pub(crate) fn give(
    keys: &mut Keys,
    indexed: &Indexed<'_>,
    task: &TaskName,
    action: &Action,
    of_task: bool,
) -> Result<(), AllocError>
    requires there { IsTrue (is_spawned (history_of indexed.now) task.now) }
    requires upward { IsUpward (λ t. has keys.old (Within t)) }
    requires of_task { IsTrue of_task → has keys.old (Task task.now) ≡ true }
    ensures { OnOk result ((k : Key) →
        has keys.new k ≡ (gives (items_told indexed.now) (record { task = task.now; action = action.now }) k
        || has keys.old k)) }
{
    give_own(keys, task, of_task)?;
    give_action(keys, action)?;
    if action.is_end() {
        give_over(keys, task)?;
        give_items(keys, task, indexed.items_of(task))?;
    }
    Ok(())
}

/// Puts the key of a step of the task, if it isn't known to be there.
fn give_own(keys: &mut Keys, task: &TaskName, known: bool) -> Result<(), AllocError>
    requires { IsTrue known → has keys.old (Task task.now) ≡ true }
    ensures { OnOk result ((k : Key) → has keys.new k ≡ (own_key task.now k || has keys.old k)) }
{
    if known {
        return Ok(());
    }
    put(&mut keys.tasks, task)
}

/// Puts the keys that the action gives by itself.
fn give_action(keys: &mut Keys, action: &Action) -> Result<(), AllocError>
    ensures { OnOk result ((k : Key) → has keys.new k ≡ (action_key action.now k || has keys.old k)) }
{
    match action {
        Action::Spawn(spawned) => put(&mut keys.tasks, &spawned.get().child),
        Action::Load { cell, .. } => put_cell(&mut keys.touched, *cell),
        Action::Store { cell, .. } => {
            put_cell(&mut keys.stored, *cell)?;
            put_cell(&mut keys.touched, *cell)
        }
        Action::Print { .. } => {
            keys.printed = true;
            Ok(())
        }
        _ => Ok(()),
    }
}

/// Puts the keys that the end of the task gives, but for its items.
fn give_over(keys: &mut Keys, task: &TaskName) -> Result<(), AllocError>
    requires { IsUpward (λ t. has keys.old (Within t)) }
    ensures { OnOk result ((k : Key) → has keys.new k ≡ (over_key task.now k || has keys.old k)) }
{
    put(&mut keys.ended, task)?;
    if let Some(parent) = task.parent()? {
        put(&mut keys.parents, &parent)?;
    }
    put_above(&mut keys.within, task)
}

/// Puts the keys of the items of a task that has ended.
fn give_items(keys: &mut Keys, task: &TaskName, items: &[Item]) -> Result<(), AllocError>
    ensures { OnOk result ((k : Key) → has keys.new k ≡ (items_key task.now items.now k || has keys.old k)) }
{
    if items.is_empty() {
        return Ok(());
    }
    match task.parent()? {
        Some(parent) => put_items(&mut keys.items, &parent, items),
        None => Ok(()),
    }
}

/// Puts the task and those above it, as far as one that is there: those above that one are there too.
fn put_above(set: &mut IndexSet<TaskName>, task: &TaskName) -> Result<(), AllocError>
    requires { IsUpward (contains same_name set.old) }
    ensures { OnOk result ((q : Name) → contains same_name set.new q ≡ (is_within q task.now || contains same_name set.old q)) }
{
    let mut next = Some(task.clone()?);
    'up: while let Some(name) = next {
        if set.contains(&name) {
            return Ok(());
        }
        put(set, &name)?;
        next = name.parent()?;
    }
    Ok(())
}

/// Puts the items of a child of the parent.
fn put_items(
    set: &mut IndexSet<(TaskName, u32, u32)>,
    parent: &TaskName,
    items: &[Item],
) -> Result<(), AllocError>
    ensures { OnOk result ((p : Name) (n c : ℕ) → contains same_item_key set.new (p, n, c)
        ≡ ((same_name parent.now p && list_any (item_key n c) items.now) || contains same_item_key set.old (p, n, c))) }
{
    for item in items {
        put_place(set, parent, number_of(item.kind), item.place)?;
    }
    Ok(())
}

/// Puts an item at this index, of the kind with this code.
fn put_place(
    set: &mut IndexSet<(TaskName, u32, u32)>,
    parent: &TaskName,
    number: u32,
    place: Place,
) -> Result<(), AllocError>
    requires { number ≤ 12 }
    ensures { OnOk result ((p : Name) (n c : ℕ) → contains same_item_key set.new (p, n, c)
        ≡ ((same_name parent.now p && place_key number place n c) || contains same_item_key set.old (p, n, c))) }
{
    match place {
        Place::Cell(cell) => {
            put_item(set, parent, number + 1, 0)?;
            put_item(set, parent, number, cell)
        }
        Place::All => put_item(set, parent, number + 2, 0),
    }
}

/// The first of the three codes of a kind.
pub(crate) fn number_of(kind: Kind) -> u32
    ensures number { result ≡ kind_number kind }
    ensures bound { result ≤ 12 }
{
    match kind {
        Kind::In => 0,
        Kind::Out => 3,
        Kind::Inout => 6,
        Kind::Mutexinoutset => 9,
        Kind::Inoutset => 12,
    }
}

/// Whether the task's action gives one of the keys; `of_task` says whether there is a key of the
/// task.
pub(crate) fn gives_some(
    keys: &Keys,
    indexed: &Indexed<'_>,
    task: &TaskName,
    action: &Action,
    of_task: bool,
) -> Result<bool, AllocError>
    requires there { IsTrue (is_spawned (history_of indexed.now) task.now) }
    requires of_task { of_task ≡ has keys.now (Task task.now) }
    ensures { IfOk result (λ b. b ≡ gives_any (has keys.now) (items_told indexed.now)
        (record { task = task.now; action = action.now })) }
{
    if of_task || gives_by_action(keys, action) {
        return Ok(true);
    }
    if !action.is_end() {
        return Ok(false);
    }
    if gives_by_over(keys, task)? {
        return Ok(true);
    }
    let found = gives_by_items(keys, task, indexed.items_of(task))?;
    Ok(found)
}

fn gives_by_action(keys: &Keys, action: &Action) -> bool
    ensures { result ≡ action_gives (has keys.now) action.now }
{
    match action {
        Action::Spawn(spawned) => keys.tasks.contains(&spawned.get().child),
        Action::Load { cell, .. } => keys.touched.contains(cell),
        Action::Store { cell, .. } => keys.stored.contains(cell) || keys.touched.contains(cell),
        Action::Print { .. } => keys.printed,
        _ => false,
    }
}

fn gives_by_over(keys: &Keys, task: &TaskName) -> Result<bool, AllocError>
    ensures { IfOk result (λ b. b ≡ over_gives (has keys.now) task.now) }
{
    if keys.ended.contains(task) || gives_by_parent(keys, task)? {
        return Ok(true);
    }
    gives_from_above(&keys.within, task)
}

fn gives_by_parent(keys: &Keys, task: &TaskName) -> Result<bool, AllocError>
    ensures { IfOk result (λ b. b ≡ parent_gives (has keys.now) task.now) }
{
    match task.parent()? {
        Some(parent) => Ok(keys.parents.contains(&parent)),
        None => Ok(false),
    }
}

/// Whether the task or one above it is in the set.
fn gives_from_above(set: &IndexSet<TaskName>, task: &TaskName) -> Result<bool, AllocError>
    ensures { IfOk result (λ b. b ≡ some_above (contains same_name set.now) task.now) }
{
    let mut next = Some(task.clone()?);
    'up: while let Some(name) = next {
        if set.contains(&name) {
            return Ok(true);
        }
        next = name.parent()?;
    }
    Ok(false)
}

fn gives_by_items(keys: &Keys, task: &TaskName, items: &[Item]) -> Result<bool, AllocError>
    ensures { IfOk result (λ b. b ≡ items_give (has keys.now) task.now items.now) }
{
    if items.is_empty() {
        return Ok(false);
    }
    match task.parent()? {
        Some(parent) => gives_some_item(keys, &parent, items),
        None => Ok(false),
    }
}

/// Whether one of these items of a child of the parent gives one of the keys.
fn gives_some_item(keys: &Keys, parent: &TaskName, items: &[Item]) -> Result<bool, AllocError>
    ensures { IfOk result (λ b. b ≡ list_any (item_gives (has keys.now) parent.now) items.now) }
{
    for item in items {
        if gives_place(keys, parent, number_of(item.kind), item.place)? {
            return Ok(true);
        }
    }
    Ok(false)
}

fn gives_place(
    keys: &Keys,
    parent: &TaskName,
    number: u32,
    place: Place,
) -> Result<bool, AllocError>
    requires { number ≤ 12 }
    ensures { IfOk result (λ b. b ≡ place_gives (has keys.now) parent.now number place) }
{
    match place {
        Place::Cell(cell) => {
            if has_item(&keys.items, parent, number, cell)? {
                return Ok(true);
            }
            has_item(&keys.items, parent, number + 1, 0)
        }
        Place::All => has_item(&keys.items, parent, number + 2, 0),
    }
}
