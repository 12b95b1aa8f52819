//! The rows of the tasks, by the indexes of their names in the table of waits.

ghost use Rattle.std.specs.Prelude.{◌≡◌, ◌<◌, ◌≤◌, ◌-◌, [], ◌∷◌, IfSome, IfOk, OnOk, IsOk, Some, None, if◌then◌else◌, true, option_map, length, vec_capacity};
ghost use Rattle.tb_model.specs.declared.place.Place.{Place as APlace};
ghost use Rattle.tb_model.specs.Names.{Name, same_name};
ghost use Rattle.tb_excl.specs.Holders.{holder};
ghost use Rattle.std.specs.Map.{keys_of};
ghost use Rattle.tb_wait.specs.Kin.{Tasks as Waiting};
ghost use Rattle.tb_undo.specs.declared.row.Row.{Row as ARow};
ghost use Rattle.tb_undo.specs.Tasks.{Task, fresh_task, row, task, holders_of, HasChildRoomIn, HasRowRoom, seen_row, advanced, retreated, IsRegister, register_over};
ghost use Rattle.tb_undo.specs.Places.{AreInPlace, CanCome, HasPlaceOrRoom, rows_in};
ghost use Rattle.tb_undo.specs.Sets.{IsLinked, Sets, Reserves, HasSetRoom, number_of, place_in, Comes, Goes};

use crate::near::{find, get};
use crate::row::Row;
use std::alloc::{AllocError, Global};
use tb_model::{Action, Item, TaskName};
use tb_store::Replaced;
use tb_wait::Wait;

/// The task holds what its items take, or holds it no longer. The root holds nothing.
pub fn hold(rows: &mut Vec<Option<Row>>, waits: &Wait, near: usize, name: &TaskName, held: bool)
    requires placed { AreInPlace waits.now.tasks rows.old.items }
    requires linked { IsLinked (rows_in rows.old.items) name.now }
    requires room { held ≡ true → HasSetRoom (rows_in rows.old.items) name.now }
    ensures placed { AreInPlace waits.now.tasks rows.new.items }
    ensures sets { Sets (rows_in rows.old.items) name.now (if held then number_of name.now else None) (rows_in rows.new.items) }
{
    if let Some((at, n)) = place_of(rows, waits, near, name) {
        if let Some(row) = &mut rows[at] {
            row.hold(n, held);
        }
    }
}

/// Reserves the capacity that it needs to hold them, and changes nothing else.
pub fn reserve_hold(
    rows: &mut Vec<Option<Row>>,
    waits: &Wait,
    near: usize,
    name: &TaskName,
) -> Result<(), AllocError>
    requires placed { AreInPlace waits.now.tasks rows.old.items }
    requires linked { IsLinked (rows_in rows.old.items) name.now }
    ensures placed { AreInPlace waits.now.tasks rows.new.items }
    ensures same { Reserves (rows_in rows.old.items) (rows_in rows.new.items) }
    ensures keeps { vec_capacity rows.old - length rows.old.items ≤ vec_capacity rows.new - length rows.new.items }
    ensures ok { OnOk result (HasSetRoom (rows_in rows.new.items) name.now) }
    ensures succeeds { HasSetRoom (rows_in rows.old.items) name.now → IsOk result }
{
    if let Some((at, n)) = place_of(rows, waits, near, name) {
        if let Some(row) = &mut rows[at] {
            return row.reserve_hold(n);
        }
    }
    Ok(())
}

/// The root alone, which hasn't started.
pub fn root_row(alloc: Global, line: u32) -> Result<Vec<Option<Row>>, AllocError>
    ensures comes { IfOk result (λ rows. Comes [] [] (fresh_task [] line []) (rows_in rows.items)) }
    ensures placed { IfOk result (λ rows. (tasks : Waiting) → keys_of tasks ≡ [] ∷ [] → AreInPlace tasks rows.items) }
{
    let root = TaskName::root(alloc);
    let row = Row::new(alloc, root, TaskName::root(alloc), 0, line, &[]);
    let mut rows = Vec::with_capacity(alloc, 1)?;
    rows.push_reserved(Some(row));
    Ok(rows)
}

/// Reserves the capacity for one more task, and for the step of its parent that generates it with
/// these items.
pub fn reserve_row(
    rows: &mut Vec<Option<Row>>,
    waits: &Wait,
    near: usize,
    parent: &TaskName,
    child: &TaskName,
    items: &[Item],
    deferred: bool,
) -> Result<(), AllocError>
    requires { AreInPlace waits.now.tasks rows.old.items }
    ensures placed { AreInPlace waits.now.tasks rows.new.items }
    ensures rows { Reserves (rows_in rows.old.items) (rows_in rows.new.items) }
    ensures keeps { vec_capacity rows.old - length rows.old.items ≤ vec_capacity rows.new - length rows.new.items }
    ensures row { OnOk result (HasPlaceOrRoom waits.now.tasks child.now (vec_capacity rows.new - length rows.new.items)) }
    ensures child { OnOk result (HasChildRoomIn (rows_in rows.new.items) parent.now items.now deferred) }
    ensures succeeds { HasPlaceOrRoom waits.now.tasks child.now (vec_capacity rows.old - length rows.old.items) →
        HasChildRoomIn (rows_in rows.old.items) parent.now items.now deferred → IsOk result }
{
    reserve_place(rows, waits, parent, child)?;
    reserve_child(rows, waits, near, parent, items, deferred)
}

/// Reserves the capacity for the child's row, where it has no index yet.
fn reserve_place(
    rows: &mut Vec<Option<Row>>,
    waits: &Wait,
    parent: &TaskName,
    child: &TaskName,
) -> Result<(), AllocError>
    ensures items { rows.new.items ≡ rows.old.items }
    ensures keeps { vec_capacity rows.old ≤ vec_capacity rows.new }
    ensures ok { OnOk result (HasPlaceOrRoom waits.now.tasks child.now (vec_capacity rows.new - length rows.new.items)) }
    ensures succeeds { HasPlaceOrRoom waits.now.tasks child.now (vec_capacity rows.old - length rows.old.items) → IsOk result }
{
    if rows.len() < rows.capacity() {
        return Ok(());
    }
    if waits.is_known(parent, child) {
        return Ok(());
    }
    rows.reserve(1)
}

/// Reserves the capacity for a step of the task that generates a child with these items.
fn reserve_child(
    rows: &mut Vec<Option<Row>>,
    waits: &Wait,
    near: usize,
    name: &TaskName,
    items: &[Item],
    deferred: bool,
) -> Result<(), AllocError>
    requires { AreInPlace waits.now.tasks rows.old.items }
    ensures placed { AreInPlace waits.now.tasks rows.new.items }
    ensures rows { Reserves (rows_in rows.old.items) (rows_in rows.new.items) }
    ensures len { length rows.new.items ≡ length rows.old.items }
    ensures capacity { vec_capacity rows.new ≡ vec_capacity rows.old }
    ensures ok { OnOk result (HasChildRoomIn (rows_in rows.new.items) name.now items.now deferred) }
    ensures succeeds { HasChildRoomIn (rows_in rows.old.items) name.now items.now deferred → IsOk result }
{
    if let Some(at) = find(rows, waits, near, name) {
        if let Some(row) = &mut rows[at] {
            return row.reserve_child(items, deferred);
        }
    }
    Ok(())
}

/// The task executes a step, which leaves it at this line. Returns the index of its row, the
/// register's value that the action writes over, and where the task was.
#[inline(always)]
pub fn advance(
    rows: &mut Vec<Option<Row>>,
    waits: &Wait,
    near: usize,
    name: &TaskName,
    action: &Action,
    to: u32,
) -> (usize, Option<i64>, u32)
    requires placed { AreInPlace waits.now.tasks rows.old.items }
    requires register { IsRegister action.now }
    requires few { (k : Task) → task (rows_in rows.old.items) name.now ≡ Some k → k.steps < 4294967295 }
    requires room { (r : ARow) → row (rows_in rows.old.items) name.now ≡ Some r → HasRowRoom r action.now }
    ensures placed { AreInPlace waits.now.tasks rows.new.items }
    ensures tasks { (u : Name) → task (rows_in rows.new.items) u
        ≡ (if same_name name.now u then option_map (advanced action.now to) (task (rows_in rows.old.items) u) else task (rows_in rows.old.items) u) }
    ensures holders { (p : Name) → holders_of (rows_in rows.new.items) p ≡ holders_of (rows_in rows.old.items) p }
    ensures replaced { (k : Task) → task (rows_in rows.old.items) name.now ≡ Some k →
        (result.1 ≡ register_over action.now k.regs) × (result.2 ≡ k.at) }
{
    if let Some(at) = find(rows, waits, near, name) {
        if let Some(row) = &mut rows[at] {
            let was = (at, row.over(action), row.at);
            row.advance(action, to);
            return was;
        }
    }
    (near, None, 0)
}

/// The task takes its newest step back, by what that replaced.
pub fn retreat(
    rows: &mut Vec<Option<Row>>,
    waits: &Wait,
    near: usize,
    name: &TaskName,
    action: &Action,
    replaced: Replaced,
)
    requires placed { AreInPlace waits.now.tasks rows.old.items }
    requires register { IsRegister action.now }
    ensures placed { AreInPlace waits.now.tasks rows.new.items }
    ensures tasks { (u : Name) → task (rows_in rows.new.items) u
        ≡ (if same_name name.now u then option_map (retreated action.now replaced.number replaced.at) (task (rows_in rows.old.items) u) else task (rows_in rows.old.items) u) }
    ensures holders { (p : Name) → holders_of (rows_in rows.new.items) p ≡ holders_of (rows_in rows.old.items) p }
{
    if let Some(at) = find(rows, waits, near, name) {
        if let Some(row) = &mut rows[at] {
            row.retreat(action, replaced.number, replaced.at);
        }
    }
}

/// A task comes to be, in the capacity that is there: its name has just come to the table of waits,
/// or was there before.
pub fn add(rows: &mut Vec<Option<Row>>, waits: &Wait, name: &TaskName, row: Row)
    requires can { CanCome waits.now.tasks name.now rows.old.items (vec_capacity rows.old - length rows.old.items) }
    requires own { row.holders.parent ≡ name.now }
    requires free { (p : APlace) → holder row.holders p ≡ None }
    ensures placed { AreInPlace waits.now.tasks rows.new.items }
    ensures comes { Comes (rows_in rows.old.items) name.now (seen_row row) (rows_in rows.new.items) }
{
    // a new name comes last
    let end = rows.len();
    let at = waits.place(end, name).unwrap_or(end);
    if at < end {
        rows[at] = Some(row);
    } else {
        rows.push_reserved(Some(row));
    }
}

/// A task is no longer there.
pub fn remove(rows: &mut Vec<Option<Row>>, waits: &Wait, near: usize, name: &TaskName)
    requires { AreInPlace waits.now.tasks rows.old.items }
    ensures placed { AreInPlace waits.now.tasks rows.new.items }
    ensures goes { Goes (rows_in rows.old.items) name.now (rows_in rows.new.items) }
{
    if let Some(at) = find(rows, waits, near, name) {
        rows[at] = None;
    }
}

/// The parent's index, and the task's ordinal among its children. The root has none.
fn place_of(
    rows: &Vec<Option<Row>>,
    waits: &Wait,
    near: usize,
    name: &TaskName,
) -> Option<(usize, u32)>
    requires placed { AreInPlace waits.now.tasks rows.now.items }
    requires linked { IsLinked (rows_in rows.now.items) name.now }
    ensures place { result ≡ place_in waits.now.tasks name.now }
    ensures from_one { IfSome result (λ r. 0 < r.1) }
{
    let n = name.ordinal()?;
    let row = get(rows, waits, near, name)?;
    let at = find(rows, waits, row.above(), &row.parent)?;
    Some((at, n))
}
