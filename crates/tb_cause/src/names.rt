//! The names of steps, by their indexes.

ghost use Rattle.std.specs.Prelude.{◌≡◌, ◌<◌, ◌≤◌, ◌-◌, IfOk, IsTrue, Some, length, map, reverse, slice_get};
ghost use Rattle.std.specs.List.{All};
ghost use Rattle.tb_model.specs.declared.step_id.StepId.{StepId};
ghost use Rattle.tb_model.specs.Facts.{is_of};
ghost use Rattle.tb_places.specs.Where.{places_where};
ghost use Rattle.tb_steps.specs.Entries.{Entry as AnEntry, departure};
ghost use Rattle.tb_core.specs.Renumbering.{events_in};
ghost use Rattle.tb_steps.specs.Scans.{step_at};
ghost use Rattle.tb_cause.specs.Indexes.{AreNumbers};

use crate::counting::count_step;
use indexmap::IndexMap;
use std::alloc::{AllocError, Global};
use tb_core::{Core, History, step_among, step_at};
use tb_model::StepId;

/// The names of the steps at these indexes. Where they are few, the ordinal of each is found among
/// its task's indexes.
pub(crate) fn names_at(
    alloc: Global,
    entries: &History<'_>,
    places: &[u32],
) -> Result<Vec<StepId>, AllocError>
    requires bound { length entries.now ≤ 1000000 }
    requires places { All (λ p. p < length entries.now) places.now }
    ensures { IfOk result (λ steps. map (λ (s : StepId). Some s) steps.items ≡ map (step_at entries.now) places.now) }
{
    if places.len() < entries.len() / 8 {
        return few_names(alloc, entries, places);
    }
    let numbers = numbers_of(alloc, entries)?;
    names_by(alloc, entries, places, &numbers)
}

/// The names of the steps at these indexes of the core's stored steps. Where they are few, the
/// ordinal of each step is found among the core's indexes of its task's steps.
pub(crate) fn names_in(
    alloc: Global,
    core: &Core,
    entries: &History<'_>,
    places: &[u32],
) -> Result<Vec<StepId>, AllocError>
    requires same { map departure (reverse entries.now) ≡ core.now.run.steps }
    requires bound { length entries.now ≤ 1000000 }
    requires places { All (λ p. p < length entries.now) places.now }
    ensures { IfOk result (λ steps. map (λ (s : StepId). Some s) steps.items ≡ map (step_at entries.now) places.now) }
{
    if places.len() < entries.len() / 2 {
        return names_found(alloc, core, entries, places);
    }
    names_at(alloc, entries, places)
}

fn names_found(
    alloc: Global,
    core: &Core,
    entries: &History<'_>,
    places: &[u32],
) -> Result<Vec<StepId>, AllocError>
    requires same { map departure (reverse entries.now) ≡ core.now.run.steps }
    requires bound { length entries.now ≤ 1000000 }
    requires places { All (λ p. p < length entries.now) places.now }
    ensures { IfOk result (λ steps. map (λ (s : StepId). Some s) steps.items ≡ map (step_at entries.now) places.now) }
{
    let mut steps = Vec::with_capacity(alloc, places.len())?;
    let mut near = 0_usize;
    for place in places {
        steps.push(name_found(core, entries, *place as usize, &mut near)?)?;
    }
    Ok(steps)
}

/// The name of the step at this index of the core's stored steps. The ordinal `near` is that of the
/// step that was found last: mostly this one is the next of its task, and then it isn't searched
/// for.
fn name_found(
    core: &Core,
    entries: &History<'_>,
    at: usize,
    near: &mut usize,
) -> Result<StepId, AllocError>
    requires same { map departure (reverse entries.now) ≡ core.now.run.steps }
    requires bound { length entries.now ≤ 1000000 }
    requires within { at < length entries.now }
    ensures { IfOk result (λ id. step_at entries.now at ≡ Some id) }
{
    let own = core.events_of(entries.task(at));
    if stands_next(own, at, *near) {
        *near += 1;
        return name_numbered(own, entries, at, *near);
    }
    let id = step_among(own, entries, at)?;
    *near = id.k as usize;
    Ok(id)
}

/// Whether the index is after so many of these.
fn stands_next(own: &[u32], at: usize, near: usize) -> bool
    ensures { IsTrue result → slice_get own.now near ≡ Some at }
{
    match own.get(near) {
        Some(place) => *place as usize == at,
        None => false,
    }
}

/// The name of the step at this index, which is the kth of those of its task.
// for the proof: `_own`, which clauses name
fn name_numbered(
    _own: &[u32],
    entries: &History<'_>,
    at: usize,
    k: usize,
) -> Result<StepId, AllocError>
    requires bound { length entries.now ≤ 1000000 }
    requires within { at < length entries.now }
    requires own { (e : AnEntry) → slice_get entries.now at ≡ Some e →
        _own.now ≡ places_where (is_of e.event.task) (events_in entries.now) }
    requires some { 0 < k }
    requires number { slice_get _own.now (k - 1) ≡ Some at }
    ensures { IfOk result (λ id. step_at entries.now at ≡ Some id) }
{
    let id = named(entries, at, k as u32)?;
    Ok(id)
}

fn few_names(
    alloc: Global,
    entries: &History<'_>,
    places: &[u32],
) -> Result<Vec<StepId>, AllocError>
    requires bound { length entries.now ≤ 1000000 }
    requires places { All (λ p. p < length entries.now) places.now }
    ensures { IfOk result (λ steps. map (λ (s : StepId). Some s) steps.items ≡ map (step_at entries.now) places.now) }
{
    let mut steps = Vec::new(alloc);
    for place in places {
        steps.push(step_at(entries, *place as usize)?)?;
    }
    Ok(steps)
}

/// The names of the steps at these indexes, where `numbers` has the ordinal of every step by its
/// index.
fn names_by(
    alloc: Global,
    entries: &History<'_>,
    places: &[u32],
    numbers: &[u32],
) -> Result<Vec<StepId>, AllocError>
    requires places { All (λ p. p < length entries.now) places.now }
    requires numbers { AreNumbers entries.now (length entries.now) numbers.now }
    ensures { IfOk result (λ steps. map (λ (s : StepId). Some s) steps.items ≡ map (step_at entries.now) places.now) }
{
    let mut steps = Vec::with_capacity(alloc, places.len())?;
    for place in places {
        steps.push(named(entries, *place as usize, numbers[*place as usize])?)?;
    }
    Ok(steps)
}

/// The name of the step at this index, which is its task's kth.
fn named(entries: &History<'_>, at: usize, k: u32) -> Result<StepId, AllocError>
    requires within { at < length entries.now }
    requires number { (id : StepId) → step_at entries.now at ≡ Some id → k ≡ id.k }
    ensures { IfOk result (λ id. step_at entries.now at ≡ Some id) }
{
    let task = entries.task(at).clone()?;
    Ok(StepId { task, k })
}

/// The ordinal of each step among the steps of its task, from 1.
fn numbers_of(alloc: Global, entries: &History<'_>) -> Result<Vec<u32>, AllocError>
    requires bound { length entries.now ≤ 1000000 }
    ensures { IfOk result (λ numbers. AreNumbers entries.now (length entries.now) numbers.items) }
{
    let mut counts = IndexMap::new(alloc);
    let mut numbers = Vec::with_capacity(alloc, entries.len())?;
    let mut near = 0_usize;
    for at in 0..entries.len() {
        let k = count_step(&mut counts, &mut near, entries.task(at))?;
        numbers.push(k)?;
    }
    Ok(numbers)
}
