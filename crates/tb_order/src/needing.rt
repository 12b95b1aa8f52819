//! What a step needs immediately, found among the steps that it may.

ghost use Rattle.std.specs.Prelude.{◌≡◌, ◌≢◌, ◌<◌, ◌≤◌, ◌⊎◌, ◌++◌, ◌∷◌, [], if◌then◌else◌, not, false, Bool, ℕ, List, suc, filter, length, slice_index_or, IfOk, IfSome, IfNone, IsTrue, IsFalse, OnOk};
ghost use Rattle.tb_steps.specs.Entries.{Entry};
ghost use Rattle.tb_races.specs.Orders.{AllNeeds};
ghost use Rattle.tb_lanes.specs.Clocks as is;
ghost use Rattle.tb_lanes.specs.Clocks.{AreTasks, IsShaped};
ghost use Rattle.tb_lanes.specs.Fewer.{AreFewer};
ghost use Rattle.tb_lanes.specs.Needing.{IsBelow, place_at};
ghost use Rattle.tb_order.specs.Needed.{AreCandidates, AreNeeded, IsAmong, IsBegun, IsRowFound, is_known, is_pending, shared_places};
ghost use Rattle.tb_order.specs.Walked.{IsOffered, IsSoFar, IsWalked, first_places};

use crate::joining::{is_merged, join};
use std::alloc::{AllocError, Global};
use tb_core::History;
use tb_lanes::{
    Clocks, Kept, LaneBound, Step, Tasks, Waiter, add_row, bound, bound_among, is_load, places_in,
    reaches, row, slot_of, whole,
};
use tb_model::Action;

/// What a step needs immediately, as far as it was found.
#[derive(Drop)]
pub struct Needed {
    pub alloc: Global,
    /// What is in front of it, by some rows.
    pub rows: Vec<Vec<LaneBound>>,
    /// The steps that it needs, the newest first.
    pub places: Vec<usize>,
}

/// These ends, and the steps that the action may need for what it shares.
pub fn candidates(
    alloc: Global,
    ends: &[usize],
    kept: &Kept,
    action: &Action,
) -> Result<Vec<usize>, AllocError>
    ensures { IfOk result (λ found.
        found.items ≡ ends.now ++ shared_places kept.now action.now) }
{
    let mut found = Vec::from_slice(alloc, ends)?;
    let Some(slot) = slot_of(action) else {
        return Ok(found);
    };
    found.extend_from_slice(places_in(&kept.writes, slot))?;
    if !is_load(action) {
        found.extend_from_slice(places_in(&kept.loads, slot))?;
    }
    Ok(found)
}

/// The indexes of which the row with which the step begins doesn't say.
pub fn untold(
    alloc: Global,
    entries: &History<'_>,
    tasks: &Tasks,
    clocks: &Clocks,
    step: &Step,
    places: &[usize],
) -> Result<Vec<usize>, AllocError>
    requires begun { IsBegun entries.now tasks.now clocks.now step.now }
    requires low { (i : ℕ) → i < length places.now → place_at places.now i < step.now.at }
    requires pending { (i : ℕ) → i < length places.now
        → IsTrue (is_pending entries.now tasks.now step.now.at (place_at places.now i)) }
    ensures { IfOk result (λ found. found.items
        ≡ filter (λ q. not (is_known entries.now tasks.now clocks.now step.now q)) places.now) }
{
    let mut found = Vec::new(alloc);
    let waiter = Waiter {
        at: step.at,
        lane: step.lane,
        parent: 0,
        from: 0,
    };
    let own = row(&clocks.rows, step.row);
    for place in places {
        let told = bound(own, clocks.lanes[*place]);
        let known = is_merged(tasks, clocks, told, &waiter, *place);
        push_unless(&mut found, known, *place)?;
    }
    Ok(found)
}

fn push_unless(found: &mut Vec<usize>, known: bool, place: usize) -> Result<(), AllocError>
    ensures { OnOk result (found.new.items
        ≡ found.old.items ++ (if not known then place ∷ [] else [])) }
{
    if !known {
        found.push(place)?;
    }
    Ok(())
}

/// What the step needs immediately, of the candidates and the step that touches its task, and its
/// row, where that is another than the one with which it begins.
pub fn needed_among(
    alloc: Global,
    entries: &History<'_>,
    tasks: &Tasks,
    clocks: &Clocks,
    step: &Step,
    found: Vec<usize>,
) -> Result<(Option<Vec<LaneBound>>, Vec<usize>), AllocError>
    requires begun { IsBegun entries.now tasks.now clocks.now step.now }
    requires found { AreCandidates entries.now tasks.now step.now.at found.items }
    ensures row { IfOk result (λ r.
        IsRowFound entries.now tasks.now clocks.now step.now found.items r.0) }
    ensures needed { IfOk result (λ r.
        AreNeeded entries.now tasks.now step.now.at found.items r.1.items) }
{
    let mut needed = Needed {
        alloc,
        rows: Vec::new(alloc),
        places: Vec::new(alloc),
    };
    let first = tasks.previous[step.at];
    if found.is_empty() {
        if first > 0 {
            needed.places.push(first - 1)?;
        }
        return Ok((None, needed.places));
    }
    let own = Vec::from_slice(alloc, row(&clocks.rows, step.row))?;
    add_row(alloc, &mut needed.rows, own)?;
    let order = in_order(found, first)?;
    let mut left = order.len();
    'back: while left > 0 {
        left -= 1;
        need(&mut needed, entries, tasks, clocks, step, order[left])?;
    }
    let row = whole(alloc, needed.rows)?;
    Ok((Some(row), needed.places))
}

/// These indexes, and that in front of the other where it isn't 0, the oldest first.
fn in_order(found: Vec<usize>, first: usize) -> Result<Vec<usize>, AllocError>
    ensures { IfOk result (λ order. IsWalked found.items first order.items) }
{
    let mut order = with_first(found, first)?;
    order.sort_unstable();
    Ok(order)
}

fn with_first(found: Vec<usize>, first: usize) -> Result<Vec<usize>, AllocError>
    ensures { IfOk result (λ all. all.items ≡ found.items ++ first_places first) }
{
    let mut all = found;
    if first > 0 {
        all.push(first - 1)?;
    }
    Ok(all)
}

/// Adds this index, where nothing that was found reaches it.
fn need(
    needed: &mut Needed,
    entries: &History<'_>,
    tasks: &Tasks,
    clocks: &Clocks,
    step: &Step,
    place: usize,
) -> Result<(), AllocError>
    requires begun { IsBegun entries.now tasks.now clocks.now step.now }
    requires place { place < step.now.at }
    requires so_far { IsSoFar entries.now tasks.now clocks.now step.now needed.old }
    requires last { (i : ℕ) → i < length needed.old.places.items
        → place ≤ place_at needed.old.places.items i }
    requires offered { IsOffered entries.now tasks.now step.now.at place }
    ensures so_far { OnOk result (IsSoFar entries.now tasks.now clocks.now step.now needed.new) }
    ensures more { OnOk result ((q : ℕ) → IsBelow AllNeeds entries.now needed.old.places.items q
        → IsBelow AllNeeds entries.now needed.new.places.items q) }
    ensures each { OnOk result ((i : ℕ) → i < length needed.new.places.items
        → IsAmong needed.old.places.items (place_at needed.new.places.items i)
        ⊎ (place_at needed.new.places.items i ≡ place)) }
    ensures covered { OnOk result (IsBelow AllNeeds entries.now needed.new.places.items place) }
{
    if tasks.previous[step.at] == place + 1 {
        if !is_reached(tasks, clocks, &needed.places, place) {
            needed.places.push(place)?;
        }
        return Ok(());
    }
    let waiter = Waiter {
        at: step.at,
        lane: step.lane,
        parent: 0,
        from: 0,
    };
    let told = bound_among(&needed.rows, clocks.lanes[place]);
    if !is_merged(tasks, clocks, told, &waiter, place) {
        join(
            needed.alloc,
            &mut needed.rows,
            tasks,
            clocks,
            &waiter,
            place,
        )?;
        needed.places.push(place)?;
    }
    Ok(())
}

/// Whether one of these is the step at this index, or comes after it.
fn is_reached(tasks: &Tasks, clocks: &Clocks, places: &[usize], early: usize) -> bool
    requires shaped { IsShaped tasks.now }
    requires listed { length clocks.now.of.items ≤ length tasks.now.numbers.items }
    requires laned { length clocks.now.lanes.items ≡ length clocks.now.of.items }
    requires early { (i : ℕ) → i < length places.now → early ≤ place_at places.now i }
    requires late { (i : ℕ) → i < length places.now
        → place_at places.now i < length clocks.now.of.items }
    ensures yes { IsTrue result → (asked : ℕ → Bool) (entries : List Entry) (n : ℕ)
        → AreTasks entries tasks.now → AreFewer asked AllNeeds entries tasks.now n clocks.now
        → n ≡ length clocks.now.of.items → IsBelow AllNeeds entries places.now early }
    ensures no { IsFalse result → (asked : ℕ → Bool) (entries : List Entry) (n : ℕ)
        → AreTasks entries tasks.now → AreFewer asked AllNeeds entries tasks.now n clocks.now
        → n ≡ length clocks.now.of.items → IsTrue (asked early) → (i : ℕ) → i < length places.now
        → is.reaches AllNeeds entries (place_at places.now i) early ≡ false }
{
    for late in places {
        if reaches(tasks, clocks, *late, early) {
            return true;
        }
    }
    false
}
