//! The steps that a step needs immediately, by one pass back over the stored steps in front of it.
//! The pass ends where all that is left is needed by way of what was found.

ghost use Rattle.std.specs.Prelude.{◌≡◌, ◌<◌, ◌≤◌, ◌+◌, ◌∷◌, [], ◌++◌, ◌&&◌, ◌||◌, not, IfOk, OnOk, IfSome, Some, false, length, reverse, get_or, if◌then◌else◌};
ghost use Rattle.tb_steps.specs.Entries.{Entry as AnEntry};
ghost use Rattle.tb_steps.specs.Scans.{AreLegal};
ghost use Rattle.tb_cause.specs.Asked.{AreAskedAt, gives_any};
ghost use Rattle.tb_cause.specs.Indexes.{items_told};
ghost use Rattle.tb_cause.specs.Keys.{Key, has};
ghost use Rattle.tb_cause.specs.Nearest.{AreNearest, IsReach};

use crate::answering::is_answered_at;
use crate::causes::{enter, is_asked, note_at};
use crate::indexed::Indexed;
use crate::keys::Keys;
use std::alloc::{AllocError, Global};
use tb_core::History;
use tb_model::Action;

/// The indexes of the steps that the one at this index needs immediately.
pub fn nearest_places(
    alloc: Global,
    entries: &History<'_>,
    at: usize,
) -> Result<Vec<u32>, AllocError>
    requires legal { AreLegal entries.now }
    requires bound { length entries.now ≤ 1000000 }
    requires within { at < length entries.now }
    ensures { IfOk result (λ places. AreNearest entries.now at places.items) }
{
    let places = nearest_among(alloc, &entries.front(at + 1), at)?;
    Ok(places)
}

/// The indexes of the steps that the one at this index needs immediately. `nearest_places` leaves
/// out the stored steps after the step, none of which it can need.
fn nearest_among(alloc: Global, entries: &History<'_>, at: usize) -> Result<Vec<u32>, AllocError>
    requires legal { AreLegal entries.now }
    requires bound { length entries.now ≤ 1000000 }
    requires within { at < length entries.now }
    ensures { IfOk result (λ places. AreNearest entries.now at places.items) }
{
    let indexed = Indexed::of(entries);
    nearest_indexed(alloc, &indexed, at)
}

fn nearest_indexed(alloc: Global, indexed: &Indexed<'_>, at: usize) -> Result<Vec<u32>, AllocError>
    requires within { at < length indexed.now }
    ensures { IfOk result (λ places. AreNearest indexed.now at places.items) }
{
    let mut own = Keys::new(alloc);
    note_and_pass(alloc, &mut own, indexed, at)
}

fn note_and_pass(
    alloc: Global,
    own: &mut Keys,
    indexed: &Indexed<'_>,
    at: usize,
) -> Result<Vec<u32>, AllocError>
    requires within { at < length indexed.now }
    requires none { (k : Key) → has own.old k ≡ false }
    ensures { IfOk result (λ places. AreNearest indexed.now at places.items) }
{
    note_at(own, indexed, at, false)?;
    let mut keys = Keys::new(alloc);
    pass(alloc, own, &mut keys, indexed, at)
}

/// Goes back over the stored steps that may be needed. The step's own keys are noted apart from
/// those of the steps that are found: a stored step that gives one of the latter is needed by way.
fn pass(
    alloc: Global,
    own: &Keys,
    keys: &mut Keys,
    indexed: &Indexed<'_>,
    at: usize,
) -> Result<Vec<u32>, AllocError>
    requires within { at < length indexed.now }
    requires own { AreAskedAt indexed.now (at ∷ []) (has own.now) }
    requires none { (k : Key) → has keys.old k ≡ false }
    ensures { IfOk result (λ places. AreNearest indexed.now at places.items) }
{
    indexed.history_is_legal();
    let mut found = Vec::new(alloc);
    let mut places = Vec::new(alloc);
    let (bottom, top) = reach_of(indexed, at);
    let mut left = top;
    'back: while bottom < left {
        left -= 1;
        if meet(own, keys, &mut places, indexed, left)? {
            enter(keys, &mut found, indexed, left, false)?;
            if is_answered_at(keys, indexed, at) {
                return Ok(turned(places));
            }
        }
    }
    Ok(turned(places))
}

/// The bounds of the indexes at which a step can be needed directly: from the first on, in front of
/// the second.
fn reach_of(indexed: &Indexed<'_>, at: usize) -> (usize, usize)
    requires within { at < length indexed.now }
    ensures top { result.1 ≤ at }
    ensures reach { IsReach indexed.now at result.0 result.1 }
{
    match lone_spawn(indexed, at) {
        Some(spawn) => (spawn, spawn + 1),
        None => (0, at),
    }
}

/// The index of the step that generates the task, where the one at this index is its start and its
/// task has no depend items: then that one alone is needed directly.
fn lone_spawn(indexed: &Indexed<'_>, at: usize) -> Option<usize>
    requires within { at < length indexed.now }
    ensures { IfSome result (λ spawn. (spawn < at) × IsReach indexed.now at spawn (spawn + 1)) }
{
    indexed.history_is_legal();
    match indexed.action_at(at) {
        Action::Start => {
            let task = indexed.task_at(at);
            if !indexed.items_of(task).is_empty() {
                return None;
            }
            // the spawn is looked for from the newest stored step on, so the items are asked first
            let spawn = indexed.spawn_of(task)?;
            if spawn < at { Some(spawn) } else { None }
        }
        _ => None,
    }
}

/// The indexes in the opposite order.
fn turned(places: Vec<u32>) -> Vec<u32>
    ensures { result.items ≡ reverse places.items }
{
    let mut places = places;
    places.reverse();
    places
}

/// Whether the stored step at this index gives one of the keys or of the step's own; its index is
/// noted where it gives one of the latter alone.
fn meet(
    own: &Keys,
    keys: &Keys,
    places: &mut Vec<u32>,
    indexed: &Indexed<'_>,
    at: usize,
) -> Result<bool, AllocError>
    requires within { at < length indexed.now }
    ensures met { IfOk result (λ b. (e : AnEntry) → e ≡ get_or indexed.now at e →
        b ≡ (gives_any (has keys.now) (items_told indexed.now) e.event || gives_any (has own.now) (items_told indexed.now) e.event)) }
    ensures places { OnOk result ((e : AnEntry) → e ≡ get_or indexed.now at e → places.new.items ≡ places.old.items
        ++ (if not (gives_any (has keys.now) (items_told indexed.now) e.event) && gives_any (has own.now) (items_told indexed.now) e.event then at ∷ [] else [])) }
{
    if is_asked(keys, indexed, at, indexed.is_of_task(keys, at))? {
        return Ok(true);
    }
    if !is_asked(own, indexed, at, indexed.is_of_task(own, at))? {
        return Ok(false);
    }
    places.push(indexed.place(at))?;
    Ok(true)
}
