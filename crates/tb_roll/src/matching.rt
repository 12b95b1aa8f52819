//! Where the steps of one history are in another. The kth step of a task there is looked for after
//! its step before, so a task's steps cost one pass over both histories at most.

ghost use Rattle.std.specs.Prelude.{◌≡◌, ◌≤◌, ◌<◌, IfOk, IfSome, IfNone, List, Some, length, take};
ghost use Rattle.tb_model.specs.Facts.{own};
ghost use Rattle.tb_model.specs.Names.{Name};
ghost use Rattle.tb_steps.specs.Entries.{Entry};
ghost use Rattle.tb_steps.specs.Scans.{history_of, step_at};
ghost use Rattle.tb_roll.specs.Comparing.{AreFound, AreMatched, IsSameStep, next_step};

use crate::same_action::is_same_action;
use std::alloc::{AllocError, Global};
use tb_core::History;
use tb_model::TaskName;

/// The indexes of the steps among the others, where each is there with the same action.
pub fn places_in(
    alloc: Global,
    entries: &History<'_>,
    others: &History<'_>,
) -> Result<Option<Vec<u32>>, AllocError>
    requires bound { length others.now ≤ 1000000 }
    ensures matched { IfOk result (λ o. IfSome o (λ places.
        AreMatched entries.now places.items others.now)) }
    ensures count { IfOk result (λ o. IfSome o (λ places.
        length places.items ≡ length entries.now)) }
    ensures absent { IfOk result (λ o. IfNone o (AreFound entries.now others.now → ⊥)) }
{
    let mut places = Vec::with_capacity(alloc, entries.len())?;
    for at in 0..entries.len() {
        match place_in(entries, at, others, &places) {
            Some(place) => places.push_reserved(place as u32),
            None => return Ok(None),
        }
    }
    Ok(Some(places))
}

/// The index among the others of the step at this index, where it is there with the same action.
/// The indexes of those in front of it are known.
fn place_in(entries: &History<'_>, at: usize, others: &History<'_>, places: &[u32]) -> Option<usize>
    requires within { at < length entries.now }
    requires count { length places.now ≡ at }
    requires matched { AreMatched entries.now places.now others.now }
    ensures same { IfSome result (λ place. IsSameStep entries.now at others.now place) }
    ensures absent { IfNone result (AreFound entries.now others.now → ⊥) }
{
    let task = entries.task(at);
    let begin = behind_last(entries, at, places, task);
    let Some(place) = next_of(others, begin, task) else {
        return None;
    };
    if is_same_action(others.action(place), entries.action(at)) {
        Some(place)
    } else {
        None
    }
}

/// The index among the others after the last step of the task in front of this index.
fn behind_last(entries: &History<'_>, at: usize, places: &[u32], task: &TaskName) -> usize
    requires within { at < length entries.now }
    requires count { length places.now ≡ at }
    ensures count { (others : List Entry) → AreMatched entries.now places.now others →
        length (own task.now (history_of (take result others)))
        ≡ length (own task.now (history_of (take at entries.now))) }
    ensures within { (others : List Entry) → AreMatched entries.now places.now others →
        result ≤ length others }
{
    let mut left = at;
    'back: while 0 < left {
        left -= 1;
        if entries.is_of(left, task) {
            return places[left] as usize + 1;
        }
    }
    0
}

/// The index of the first step of the task from `begin` on.
fn next_of(entries: &History<'_>, begin: usize, task: &TaskName) -> Option<usize>
    requires within { begin ≤ length entries.now }
    ensures step { IfSome result (λ place.
        step_at entries.now place ≡ Some (next_step task.now entries.now begin)) }
    ensures within { IfSome result (λ place. place < length entries.now) }
    ensures none { IfNone result
        (own task.now (history_of entries.now) ≡ own task.now (history_of (take begin entries.now))) }
{
    for at in begin..entries.len() {
        if entries.is_of(at, task) {
            return Some(at);
        }
    }
    None
}
