//! Where the steps of a history are among its stored steps, which come from the oldest.

ghost use Rattle.std.specs.Prelude.{◌≡◌, ◌<◌, ◌≤◌, ◌↔◌, IfOk, IfSome, IsErr, IsSome, IsTrue, Some, length, slice_get};
ghost use Rattle.tb_model.specs.declared.step_id.StepId.{StepId as AStepId};
ghost use Rattle.tb_steps.specs.Entries.{Entry as AnEntry};
ghost use Rattle.tb_model.specs.Facts.{History as Events, own, is_of};
ghost use Rattle.tb_model.specs.Equivalent.{stands};
ghost use Rattle.tb_core.specs.Naming.{IsLongName};
ghost use Rattle.tb_steps.specs.Scans.{history_of, step_at};
ghost use Rattle.tb_places.specs.Where.{places_where};
ghost use Rattle.tb_core.specs.Renumbering.{events_in};

use crate::history::History;
use std::alloc::AllocError;
use tb_model::{StepId, TaskName};

/// The index of a step: where the kth event of its task is.
#[tactic(auto, using(tb_steps::proofs::ScanLemmas::found_stands, tb_steps::proofs::ScanLemmas::found_step_at))]
pub fn place_of(entries: &History<'_>, id: &StepId) -> Option<usize>
    ensures there { IsSome result ↔ IsTrue (stands id.now (history_of entries.now)) }
    ensures step { IfSome result (λ at. step_at entries.now at ≡ Some id.now) }
    ensures within { IfSome result (λ at. at < length entries.now) }
{
    let mut count = 0;
    for at in 0..entries.len() {
        if entries.is_of(at, &id.task) {
            count += 1;
            if count == id.k as usize {
                return Some(at);
            }
        }
    }
    None
}

/// The index of a step, read off those of its task's steps.
pub fn place_in(own: &[u32], entries: &History<'_>, id: &StepId) -> Option<usize>
    requires { own.now ≡ places_where (is_of id.now.task) (events_in entries.now) }
    ensures there { IsSome result ↔ IsTrue (stands id.now (history_of entries.now)) }
    ensures step { IfSome result (λ at. step_at entries.now at ≡ Some id.now) }
    ensures within { IfSome result (λ at. at < length entries.now) }
{
    if !is_number_of(id, own.len()) {
        return None;
    }
    Some(own[id.k as usize - 1] as usize)
}

/// Whether a task with this many steps has the step.
fn is_number_of(id: &StepId, steps: usize) -> bool
    ensures { (H : Events) → steps ≡ length (own id.now.task H) → result ≡ stands id.now H }
{
    if id.k == 0 {
        return false;
    }
    if steps < id.k as usize {
        return false;
    }
    true
}

/// The step at this index. It can be refused where a copy of its task's name can, beyond three
/// ordinals.
pub fn step_at(entries: &History<'_>, at: usize) -> Result<StepId, AllocError>
    requires within { at < length entries.now }
    requires bound { length entries.now ≤ 1000000 }
    ensures { IfOk result (λ id. step_at entries.now at ≡ Some id) }
{
    let task = entries.task(at).clone()?;
    let k = ordinal_of(entries, at);
    Ok(StepId { task, k })
}

/// The step at this index, where its task's indexes are these.
pub fn step_among(own: &[u32], entries: &History<'_>, at: usize) -> Result<StepId, AllocError>
    requires within { at < length entries.now }
    requires bound { length entries.now ≤ 1000000 }
    requires own { (e : AnEntry) → slice_get entries.now at ≡ Some e →
        own.now ≡ places_where (is_of e.event.task) (events_in entries.now) }
    ensures step { IfOk result (λ id. step_at entries.now at ≡ Some id) }
    ensures long { (id : AStepId) → IsErr result → step_at entries.now at ≡ Some id → IsLongName id.task }
{
    let task = entries.task(at).clone()?;
    let k = ordinal_among(own, entries, at);
    Ok(StepId { task, k })
}

/// The ordinal of the step at this index, found among its task's indexes. Where it isn't among
/// them, the steps in front of it are counted.
fn ordinal_among(own: &[u32], entries: &History<'_>, at: usize) -> u32
    requires within { at < length entries.now }
    requires bound { length entries.now ≤ 1000000 }
    requires own { (e : AnEntry) → slice_get entries.now at ≡ Some e →
        own.now ≡ places_where (is_of e.event.task) (events_in entries.now) }
    ensures { (id : AStepId) → step_at entries.now at ≡ Some id → result ≡ id.k }
{
    match own.binary_search(&(at as u32)) {
        Ok(before) => before as u32 + 1,
        Err(_) => ordinal_of(entries, at),
    }
}

/// The ordinal of the step at this index among the steps of its task, from 1, found among the
/// indexes of these.
pub fn ordinal_of(entries: &History<'_>, at: usize) -> u32
    requires within { at < length entries.now }
    requires bound { length entries.now ≤ 1000000 }
    ensures { (id : AStepId) → step_at entries.now at ≡ Some id → result ≡ id.k }
{
    match entries.rank(at) {
        Some(before) => before as u32 + 1,
        None => counted_ordinal(entries, at),
    }
}

/// The ordinal of the step at this index among the steps of its task, from 1, counted over the
/// stored steps in front of it.
fn counted_ordinal(entries: &History<'_>, at: usize) -> u32
    requires within { at < length entries.now }
    requires bound { length entries.now ≤ 1000000 }
    ensures { (id : AStepId) → step_at entries.now at ≡ Some id → result ≡ id.k }
{
    steps_of(&entries.front(at), entries.task(at)) as u32 + 1
}

/// How many of the stored steps are the task's.
pub(crate) fn steps_of(entries: &History<'_>, t: &TaskName) -> usize
    ensures count { result ≡ length (own t.now (history_of entries.now)) }
    ensures within { result ≤ length entries.now }
{
    let mut count = 0;
    let mut rest = entries.again();
    'back: while let Some((older, task, _)) = rest.split_newest() {
        if *task == *t {
            count += 1;
        }
        rest = older;
    }
    count
}
