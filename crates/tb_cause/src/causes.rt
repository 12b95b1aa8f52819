//! What a step needs, by one pass back over the stored steps in front of it.

ghost use Rattle.std.specs.Prelude.{◌≡◌, ◌<◌, ◌≤◌, ◌∷◌, [], ◌++◌, ◌||◌, IfOk, IsTrue, OnOk, Some, false, true, length, reverse, take, get_or};
ghost use Rattle.tb_model.specs.declared.step_id.StepId.{StepId};
ghost use Rattle.tb_steps.specs.Entries.{Entry as AnEntry};
ghost use Rattle.tb_steps.specs.Scans.{AreLegal, history_of, step_at};
ghost use Rattle.tb_cause.specs.Asked.{AreAskedAt, AreCausesAt, asks, gives_any};
ghost use Rattle.tb_cause.specs.Chains.{causes_of};
ghost use Rattle.tb_cause.specs.Indexes.{items_told};
ghost use Rattle.tb_cause.specs.Keys.{IsOfTask, Key, has};

use crate::giving::gives_some;
use crate::indexed::Indexed;
use crate::keys::Keys;
use crate::names::names_at;
use crate::noting::note;
use std::alloc::{AllocError, Global};
use tb_core::History;
use tb_model::StepId;

/// The steps that the one at this index needs, directly or through others.
pub(crate) fn causes_of(
    alloc: Global,
    entries: &History<'_>,
    at: usize,
) -> Result<Vec<StepId>, AllocError>
    requires legal { AreLegal entries.now }
    requires bound { length entries.now ≤ 1000000 }
    requires within { at < length entries.now }
    ensures { IfOk result (λ steps. (step : StepId) → step_at entries.now at ≡ Some step →
        steps.items ≡ reverse (causes_of step (history_of entries.now))) }
{
    let steps = causes_among(alloc, &entries.front(at + 1), at)?;
    Ok(steps)
}

/// The steps that the one at this index needs, directly or through others. `causes_of` leaves out
/// the stored steps after the step, none of which it can need.
fn causes_among(alloc: Global, entries: &History<'_>, at: usize) -> Result<Vec<StepId>, AllocError>
    requires legal { AreLegal entries.now }
    requires bound { length entries.now ≤ 1000000 }
    requires within { at < length entries.now }
    ensures { IfOk result (λ steps. (step : StepId) → step_at entries.now at ≡ Some step →
        steps.items ≡ reverse (causes_of step (history_of entries.now))) }
{
    let places = places_in_front(alloc, entries, at)?;
    let steps = names_at(alloc, entries, &places)?;
    Ok(steps)
}

/// The indexes of the steps that the one at this index needs.
fn places_in_front(alloc: Global, entries: &History<'_>, at: usize) -> Result<Vec<u32>, AllocError>
    requires legal { AreLegal entries.now }
    requires bound { length entries.now ≤ 1000000 }
    requires within { at < length entries.now }
    ensures { IfOk result (λ places. AreCausesAt entries.now at places.items) }
{
    let indexed = Indexed::of(entries);
    places_indexed(alloc, &indexed, at)
}

fn places_indexed(alloc: Global, indexed: &Indexed<'_>, at: usize) -> Result<Vec<u32>, AllocError>
    requires within { at < length indexed.now }
    ensures { IfOk result (λ places. AreCausesAt indexed.now at places.items) }
{
    let mut keys = Keys::new(alloc);
    note_and_pass(alloc, &mut keys, indexed, at)
}

fn note_and_pass(
    alloc: Global,
    keys: &mut Keys,
    indexed: &Indexed<'_>,
    at: usize,
) -> Result<Vec<u32>, AllocError>
    requires within { at < length indexed.now }
    requires none { (k : Key) → has keys.old k ≡ false }
    ensures { IfOk result (λ places. AreCausesAt indexed.now at places.items) }
{
    note_at(keys, indexed, at, false)?;
    pass(alloc, keys, indexed, at)
}

/// Goes back over the stored steps in front of the one at this index, whose keys are noted.
fn pass(
    alloc: Global,
    keys: &mut Keys,
    indexed: &Indexed<'_>,
    at: usize,
) -> Result<Vec<u32>, AllocError>
    requires within { at < length indexed.now }
    requires asked { AreAskedAt indexed.now (at ∷ []) (has keys.old) }
    ensures { IfOk result (λ places. AreCausesAt indexed.now at places.items) }
{
    indexed.history_is_legal();
    let mut places = Vec::new(alloc);
    let mut of_task = indexed.is_of_task(keys, at);
    let mut left = at;
    'back: while 0 < left {
        left -= 1;
        of_task = indexed.is_of_earlier(keys, left, of_task);
        if is_asked(keys, indexed, left, of_task)? {
            enter(keys, &mut places, indexed, left, of_task)?;
            of_task = true;
        }
    }
    places.reverse();
    Ok(places)
}

/// Whether the stored step at this index gives one of the keys; `of_task` says whether there is a
/// key of its task.
pub(crate) fn is_asked(
    keys: &Keys,
    indexed: &Indexed<'_>,
    at: usize,
    of_task: bool,
) -> Result<bool, AllocError>
    requires within { at < length indexed.now }
    requires of_task { IsOfTask indexed.now at (has keys.now) of_task }
    ensures { IfOk result (λ b. (e : AnEntry) → e ≡ get_or indexed.now at e →
        b ≡ gives_any (has keys.now) (items_told indexed.now) e.event) }
{
    indexed.history_is_legal();
    let task = indexed.task_at(at);
    let action = indexed.action_at(at);
    let found = gives_some(keys, indexed, task, action, of_task)?;
    Ok(found)
}

/// Notes the keys of the stored step at this index, and the index after the others; where `of_task`
/// is set, there is a key of the stored step's task.
pub(crate) fn enter(
    keys: &mut Keys,
    places: &mut Vec<u32>,
    indexed: &Indexed<'_>,
    at: usize,
    of_task: bool,
) -> Result<(), AllocError>
    requires within { at < length indexed.now }
    requires of_task { IsTrue of_task → IsOfTask indexed.now at (has keys.old) true }
    ensures places { OnOk result (places.new.items ≡ places.old.items ++ at ∷ []) }
    ensures keys { OnOk result ((k : Key) (e : AnEntry) → e ≡ get_or indexed.now at e → has keys.new k
        ≡ (asks (items_told indexed.now) (history_of (take at indexed.now)) e.event k || has keys.old k)) }
{
    note_at(keys, indexed, at, of_task)?;
    places.push(indexed.place(at))?;
    Ok(())
}

/// Notes the keys of the stored step at this index; where `of_task` is set, there is a key of its
/// task.
pub(crate) fn note_at(
    keys: &mut Keys,
    indexed: &Indexed<'_>,
    at: usize,
    of_task: bool,
) -> Result<(), AllocError>
    requires within { at < length indexed.now }
    requires of_task { IsTrue of_task → IsOfTask indexed.now at (has keys.old) true }
    ensures { OnOk result ((k : Key) (e : AnEntry) → e ≡ get_or indexed.now at e → has keys.new k
        ≡ (asks (items_told indexed.now) (history_of (take at indexed.now)) e.event k || has keys.old k)) }
{
    indexed.history_is_legal();
    let task = indexed.task_at(at);
    let action = indexed.action_at(at);
    let held = indexed.held_at(at);
    let front = indexed.front(at);
    note(keys, indexed, &front, task, action, held, of_task)?;
    Ok(())
}
