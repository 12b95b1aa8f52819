//! What needs a step, by one pass over the stored steps after it.

ghost use Rattle.std.specs.Prelude.{◌≡◌, ◌<◌, ◌≤◌, ◌+◌, ◌-◌, ◌∷◌, [], ◌++◌, ◌||◌, IfOk, IsTrue, OnOk, Some, false, true, length, map, reverse, take, get_or};
ghost use Rattle.std.specs.List.{All};
ghost use Rattle.tb_model.specs.declared.step_id.StepId.{StepId};
ghost use Rattle.tb_steps.specs.Entries.{Entry as AnEntry, departure};
ghost use Rattle.tb_steps.specs.Scans.{AreLegal, history_of, step_at};
ghost use Rattle.tb_cause.specs.Chains.{AreAllBehind, AreGivenAt, IsCone};
ghost use Rattle.tb_cause.specs.Indexes.{items_told};
ghost use Rattle.tb_cause.specs.Keys.{Key, IsOfTask, Within, IsUpward, gives, has, takes_any};

use crate::cone::Cone;
use crate::giving::give;
use crate::indexed::Indexed;
use crate::keys::Keys;
use crate::names::{names_at, names_in};
use crate::skipping::next_taker;
use crate::taking::takes_some;
use std::alloc::{AllocError, Global};
use tb_core::{Core, History};
use tb_model::StepId;

/// The step at this index with all that need it.
pub fn cone_of(
    alloc: Global,
    entries: &History<'_>,
    at: usize,
    step: &StepId,
) -> Result<Cone, AllocError>
    requires legal { AreLegal entries.now }
    requires bound { length entries.now ≤ 1000000 }
    requires within { at < length entries.now }
    requires here { step_at entries.now at ≡ Some step.now }
    ensures cone { IfOk result (IsCone step.now (history_of entries.now)) }
    ensures behind { IfOk result (λ c. All (λ p. at ≤ p) c.places.items) }
{
    let places = places_behind(alloc, entries, at, step)?;
    let steps = names_at(alloc, entries, &places)?;
    Ok(Cone { places, steps })
}

/// The step at this index with all that need it, for the core's own stored steps: where these are
/// few, they are named without a pass over all stored steps.
pub fn cone_in(
    alloc: Global,
    core: &Core,
    entries: &History<'_>,
    at: usize,
    step: &StepId,
) -> Result<Cone, AllocError>
    requires same { map departure (reverse entries.now) ≡ core.now.run.steps }
    requires legal { AreLegal entries.now }
    requires bound { length entries.now ≤ 1000000 }
    requires within { at < length entries.now }
    requires here { step_at entries.now at ≡ Some step.now }
    ensures cone { IfOk result (IsCone step.now (history_of entries.now)) }
    ensures behind { IfOk result (λ c. All (λ p. at ≤ p) c.places.items) }
{
    let places = places_behind(alloc, entries, at, step)?;
    let steps = names_in(alloc, core, entries, &places)?;
    Ok(Cone { places, steps })
}

/// The indexes of the step at this index and of all that need it.
fn places_behind(
    alloc: Global,
    entries: &History<'_>,
    at: usize,
    step: &StepId,
) -> Result<Vec<u32>, AllocError>
    requires legal { AreLegal entries.now }
    requires bound { length entries.now ≤ 1000000 }
    requires within { at < length entries.now }
    requires here { step_at entries.now at ≡ Some step.now }
    ensures { IfOk result (λ places. AreAllBehind step.now entries.now at places.items) }
{
    if at + 1 == entries.len() {
        return place_alone(alloc, entries, at, step);
    }
    let indexed = Indexed::of(entries);
    places_indexed(alloc, &indexed, at, step)
}

/// The index of the newest step alone: nothing can need it, so nothing is looked up.
// for the proof: `_step`, which clauses name
fn place_alone(
    alloc: Global,
    entries: &History<'_>,
    at: usize,
    _step: &StepId,
) -> Result<Vec<u32>, AllocError>
    requires bound { length entries.now ≤ 1000000 }
    requires within { at < length entries.now }
    requires here { step_at entries.now at ≡ Some _step.now }
    requires newest { at + 1 ≡ length entries.now }
    ensures { IfOk result (λ places. AreAllBehind _step.now entries.now at places.items) }
{
    let mut places = Vec::new(alloc);
    places.push(at as u32)?;
    Ok(places)
}

fn places_indexed(
    alloc: Global,
    indexed: &Indexed<'_>,
    at: usize,
    step: &StepId,
) -> Result<Vec<u32>, AllocError>
    requires within { at < length indexed.now }
    requires here { step_at indexed.now at ≡ Some step.now }
    ensures { IfOk result (λ places. AreAllBehind step.now indexed.now at places.items) }
{
    let mut keys = Keys::new(alloc);
    enter_and_pass(alloc, &mut keys, indexed, at, step)
}

fn enter_and_pass(
    alloc: Global,
    keys: &mut Keys,
    indexed: &Indexed<'_>,
    at: usize,
    step: &StepId,
) -> Result<Vec<u32>, AllocError>
    requires within { at < length indexed.now }
    requires here { step_at indexed.now at ≡ Some step.now }
    requires none { (k : Key) → has keys.old k ≡ false }
    ensures { IfOk result (λ places. AreAllBehind step.now indexed.now at places.items) }
{
    let mut places = Vec::new(alloc);
    enter(keys, &mut places, indexed, at, false)?;
    pass(keys, &mut places, indexed, at, step)?;
    Ok(places)
}

/// Goes through the stored steps after the one at this index, which is found.
// for the proof: `_step`, which clauses name
fn pass(
    keys: &mut Keys,
    places: &mut Vec<u32>,
    indexed: &Indexed<'_>,
    at: usize,
    _step: &StepId,
) -> Result<(), AllocError>
    requires within { at < length indexed.now }
    requires here { step_at indexed.now at ≡ Some _step.now }
    requires first { places.old.items ≡ at ∷ [] }
    requires given { AreGivenAt indexed.now places.old.items (has keys.old) }
    ensures { OnOk result (AreAllBehind _step.now indexed.now at places.new.items) }
{
    indexed.history_is_legal();
    let mut of_task = indexed.is_of_task(keys, at);
    let mut later = at + 1;
    'forward: while later < indexed.len() {
        let is_taken = of_task && indexed.follows_its_own(later);
        let next = next_taker(keys, indexed, places, later, is_taken)?;
        if next == indexed.len() {
            return Ok(());
        }
        of_task = is_of_task_on(keys, indexed, later, next, of_task);
        if goes(keys, indexed, next, of_task)? {
            enter(keys, places, indexed, next, of_task)?;
            of_task = true;
        }
        later = next + 1;
    }
    Ok(())
}

/// Whether there is a key of the task of the stored step at the index `next`, where it is known of
/// the stored step in front of `later`, which mostly is of the same task: then no hash is taken.
#[inline(always)]
fn is_of_task_on(
    keys: &Keys,
    indexed: &Indexed<'_>,
    later: usize,
    next: usize,
    of_last: bool,
) -> bool
    requires within { next < length indexed.now }
    requires behind { 0 < later }
    requires last { IsOfTask indexed.now (later - 1) (has keys.now) of_last }
    ensures { IsOfTask indexed.now next (has keys.now) result }
{
    if next == later {
        indexed.is_of_next(keys, next, of_last)
    } else {
        indexed.is_of_task(keys, next)
    }
}

/// Whether the stored step at this index asks for one of the keys; `of_task` says whether there is
/// a key of its task.
fn goes(keys: &Keys, indexed: &Indexed<'_>, later: usize, of_task: bool) -> Result<bool, AllocError>
    requires within { later < length indexed.now }
    requires of_task { IsOfTask indexed.now later (has keys.now) of_task }
    ensures { IfOk result (λ b. (e : AnEntry) → e ≡ get_or indexed.now later e →
        b ≡ takes_any (has keys.now) (items_told indexed.now) (history_of (take later indexed.now)) e.event) }
{
    indexed.history_is_legal();
    let task = indexed.task_at(later);
    let action = indexed.action_at(later);
    let held = indexed.held_at(later);
    let front = indexed.front(later);
    let found = takes_some(keys, indexed, &front, task, action, held, of_task)?;
    Ok(found)
}

/// Puts the keys of the stored step at this index, and the index after the others; where `of_task`
/// is set, there is a key of the stored step's task.
fn enter(
    keys: &mut Keys,
    places: &mut Vec<u32>,
    indexed: &Indexed<'_>,
    at: usize,
    of_task: bool,
) -> Result<(), AllocError>
    requires within { at < length indexed.now }
    requires of_task { IsTrue of_task → IsOfTask indexed.now at (has keys.old) true }
    requires upward { IsUpward (λ t. has keys.old (Within t)) }
    ensures places { OnOk result (places.new.items ≡ places.old.items ++ at ∷ []) }
    ensures keys { OnOk result ((k : Key) (e : AnEntry) → e ≡ get_or indexed.now at e →
        has keys.new k ≡ (gives (items_told indexed.now) e.event k || has keys.old k)) }
{
    indexed.history_is_legal();
    let task = indexed.task_at(at);
    let action = indexed.action_at(at);
    give(keys, indexed, task, action, of_task)?;
    places.push(indexed.place(at))?;
    Ok(())
}
