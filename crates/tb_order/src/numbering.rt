//! Which steps of a history are of one task.

ghost use Rattle.std.specs.Prelude.{◌≡◌, ◌<◌, ◌+◌, ◌≤◌, length, slice_get, Some, IfOk, OnOk, suc, ℕ, true, false, IsTrue, if◌then◌else◌};
ghost use Rattle.tb_steps.specs.Entries.{Entry};
ghost use Rattle.tb_steps.specs.Scans.{AreLegal};
ghost use Rattle.tb_model.specs.Facts.{is_spawn_of};
ghost use Rattle.tb_model.specs.Names.{Name};
ghost use Rattle.tb_lanes.specs.Clocks as is;
ghost use Rattle.tb_lanes.specs.Clocks.{AreTasks, both_at, of_one};
ghost use Rattle.tb_lanes.specs.Numbering.{AreNewest, AreNumbered, IsAdded, IsPut, of_at, place_of, touched};

use indexmap::IndexMap;
use std::alloc::{AllocError, Global};
use tb_core::History;
use tb_lanes::Tasks;
use tb_model::{Action, TaskName};

/// The steps of these stored steps by their tasks.
pub fn tasks_of(alloc: Global, entries: &History<'_>) -> Result<Tasks, AllocError>
    requires legal { AreLegal entries.now }
    ensures { IfOk result (AreTasks entries.now) }
{
    let mut newest = IndexMap::new(alloc);
    let mut tasks = Tasks {
        previous: Vec::new(alloc),
        numbers: Vec::new(alloc),
        origins: Vec::new(alloc),
    };
    let mut count = 0_usize;
    for at in 0..entries.len() {
        let previous = previous_of(&mut newest, entries, at)?;
        note_spawn(&mut newest, entries.action(at), at + 1)?;
        count = add(&mut tasks, entries, at, previous, count)?;
    }
    Ok(tasks)
}

/// Adds the step at this index, and returns how many tasks there are then.
fn add(
    tasks: &mut Tasks,
    entries: &History<'_>,
    at: usize,
    previous: usize,
    count: usize,
) -> Result<usize, AllocError>
    requires legal { AreLegal entries.now }
    requires at { at < length entries.now }
    requires previous { (v : Entry) → slice_get entries.now at ≡ Some v →
        previous ≡ touched entries.now v.event.task at }
    requires numbered { AreNumbered entries.now at count tasks.old }
    ensures { IfOk result (λ n. AreNumbered entries.now (at + 1) n tasks.new) }
{
    if is_own(entries, at, previous) {
        let number = tasks.numbers[previous - 1];
        let origin = tasks.origins[previous - 1];
        push(tasks, previous, number, origin)?;
        Ok(count)
    } else {
        push(tasks, previous, count, previous)?;
        Ok(count + 1)
    }
}

/// Whether the step that is listed is of the same task.
fn is_own(entries: &History<'_>, at: usize, previous: usize) -> bool
    requires at { at < length entries.now }
    requires previous { previous ≤ at }
    ensures own { IsTrue result → (b : ℕ) × (previous ≡ suc b) × (both_at of_one entries.now at b ≡ true) }
    ensures other { result ≡ false → (b : ℕ) → previous ≡ suc b → both_at of_one entries.now at b ≡ false }
{
    previous > 0 && entries.are_of_one(at, previous - 1)
}

fn push(tasks: &mut Tasks, previous: usize, number: usize, origin: usize) -> Result<(), AllocError>
    ensures { OnOk result (IsAdded tasks.old previous number origin tasks.new) }
{
    tasks.previous.push(previous)?;
    tasks.numbers.push(number)?;
    tasks.origins.push(origin)?;
    Ok(())
}

/// One more than the index of the newest step in front of this one that touches its task. Who steps
/// on isn't looked for by name.
fn previous_of(
    newest: &mut IndexMap<TaskName, usize>,
    entries: &History<'_>,
    at: usize,
) -> Result<usize, AllocError>
    requires at { at < length entries.now }
    requires newest { AreNewest entries.now at newest.old.entries }
    ensures previous { IfOk result (λ n. (v : Entry) → slice_get entries.now at ≡ Some v →
        n ≡ touched entries.now v.event.task at) }
    ensures newest { OnOk result ((t : Name) → of_at entries.now t at ≡ false →
        place_of newest.new.entries t ≡ touched entries.now t at) }
{
    if at > 0 {
        if entries.are_of_one(at, at - 1) {
            return Ok(at);
        }
        put(newest, entries.task(at - 1), at)?;
    }
    Ok(place_in(newest, entries.task(at)))
}

/// Notes the index for the task that the action generates, if it generates one.
fn note_spawn(
    newest: &mut IndexMap<TaskName, usize>,
    action: &Action,
    place: usize,
) -> Result<(), AllocError>
    ensures { OnOk result ((t : Name) → place_of newest.new.entries t
        ≡ (if is_spawn_of t action.now then place else place_of newest.old.entries t)) }
{
    match action {
        Action::Spawn(spawned) => put(newest, &spawned.get().child, place),
        _ => Ok(()),
    }
}

fn place_in(newest: &IndexMap<TaskName, usize>, task: &TaskName) -> usize
    ensures { result ≡ place_of newest.now.entries task.now }
{
    match newest.get(task) {
        Some(place) => *place,
        None => 0,
    }
}

/// Notes where the newest step is that touches the task.
fn put(
    newest: &mut IndexMap<TaskName, usize>,
    task: &TaskName,
    place: usize,
) -> Result<(), AllocError>
    ensures { OnOk result (IsPut newest.old.entries task.now place newest.new.entries) }
{
    if let Some(old) = newest.get_mut(task) {
        *old = place;
        return Ok(());
    }
    let name = task.clone()?;
    newest.reserve(1)?;
    newest.insert(name, place).unwrap();
    Ok(())
}
