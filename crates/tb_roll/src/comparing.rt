//! Whether two runs are one, up to the order of steps that don't need each other.

ghost use Rattle.std.specs.Prelude.{◌≡◌, ◌≤◌, ◌<◌, ◌↔◌, IfOk, IsTrue, List, Some, get_or, length, take};
ghost use Rattle.tb_model.specs.declared.step_id.StepId.{StepId};
ghost use Rattle.tb_model.specs.Equivalent.{Equivalent};
ghost use Rattle.tb_model.specs.Ordered.{all_first, ordered};
ghost use Rattle.tb_steps.specs.Entries.{Entry};
ghost use Rattle.tb_steps.specs.Scans.{history_of, step_at};
ghost use Rattle.tb_core.specs.Seen.{history};
ghost use Rattle.tb_roll.specs.Comparing.{AreMatched, IsFoundIn};

use crate::matching::places_in;
use std::alloc::{AllocError, Global};
use tb_core::{Core, History, needs};

/// Whether the two histories are equivalent. Where one program fits both, they have then the same
/// state, the same next events and the same needs.
pub fn same_run(alloc: Global, one: &Core, other: &Core) -> Result<bool, AllocError>
    ensures { IfOk result (λ same.
        IsTrue same ↔ Equivalent (history one.now.run) (history other.now.run)) }
{
    let entries = one.legal_entries();
    let others = other.legal_entries();
    if !is_found_in(alloc, &entries, &others)? {
        return Ok(false);
    }
    is_found_in(alloc, &others, &entries)
}

/// Whether each step is among the others with its action, and each direct need in its order.
fn is_found_in(
    alloc: Global,
    entries: &History<'_>,
    others: &History<'_>,
) -> Result<bool, AllocError>
    requires bound { length others.now ≤ 1000000 }
    ensures { IfOk result (λ found.
        IsTrue found ↔ IsFoundIn (history_of entries.now) (history_of others.now)) }
{
    match places_in(alloc, entries, others)? {
        Some(places) => Ok(is_in_order(entries, &places)),
        None => Ok(false),
    }
}

/// Whether each stored step is after those that it directly needs, also by these indexes.
fn is_in_order(entries: &History<'_>, places: &[u32]) -> bool
    requires count { length places.now ≡ length entries.now }
    ensures { (others : List Entry) → AreMatched entries.now places.now others →
        result ≡ ordered (history_of others) (history_of entries.now) }
{
    for later in 0..entries.len() {
        if !comes_behind(entries, places, later) {
            return false;
        }
    }
    true
}

/// Whether the step at this index comes after those that it directly needs.
fn comes_behind(entries: &History<'_>, places: &[u32], later: usize) -> bool
    requires count { length places.now ≡ length entries.now }
    requires within { later < length entries.now }
    ensures { (others : List Entry) (i : StepId) (v : Entry) →
        AreMatched entries.now places.now others →
        step_at entries.now later ≡ Some i → v ≡ get_or entries.now later v →
        result ≡ all_first (history_of others) i (history_of (take later entries.now)) v.event
        (history_of (take later entries.now)) }
{
    let place = places[later];
    for earlier in 0..later {
        // Comparing the indexes is cheap.
        if place <= places[earlier] && needs(entries, later, earlier) {
            return false;
        }
    }
    true
}
