//! For which steps a later one may still ask, so that rows say no more of the others.

ghost use Rattle.std.specs.Prelude.{◌≡◌, ◌<◌, ◌≤◌, ◌+◌, ℕ, List, IfOk, OnOk, IsTrue, IsFalse, false, filter, length};
ghost use Rattle.tb_steps.specs.Entries.{Entry};
ghost use Rattle.tb_lanes.specs.declared.tasks.Tasks.{Tasks as ATasks};
ghost use Rattle.tb_lanes.specs.Clocks.{AreTasks, IsShaped};
ghost use Rattle.tb_order.specs.Needed.{AreShared, is_pending, is_uncovered};
ghost use Rattle.tb_order.specs.Pending as is;
ghost use Rattle.tb_order.specs.Pending.{ArePending, AreUntil, IsLaneMore, IsLinked, IsPartOf};

use std::alloc::{AllocError, Global};
use tb_core::History;
use tb_lanes::{Kept, LaneBound, Tasks, places_in, slot_of};

/// For which of the first steps of a history a later one may still ask.
#[derive(Drop)]
pub struct Pending {
    /// For each step of the history one at which, or before which, the last one asks for it that goes
    /// on in its task or begins the task that it generates.
    pub until: Vec<usize>,
    /// For each lane a step before which nobody asks for any of it.
    pub firsts: Vec<usize>,
    /// For each lane its newest step.
    pub lasts: Vec<usize>,
    /// For each step the next one of its lane, or itself.
    pub nexts: Vec<usize>,
}

/// No lanes yet.
pub fn no_lanes(alloc: Global, tasks: &Tasks) -> Result<Pending, AllocError>
    requires shaped { IsShaped tasks.now }
    ensures linked { IfOk result IsLinked }
    ensures listed { IfOk result (λ pending.
        length pending.until.items ≡ length tasks.now.numbers.items) }
    ensures none { IfOk result (λ pending. length pending.firsts.items ≡ 0) }
    ensures pending { IfOk result (λ pending. (entries : List Entry) (from : ℕ) (lane : ℕ → ℕ)
        → AreTasks entries tasks.now → ArePending entries tasks.now 0 from lane pending) }
{
    let until = last_uses(alloc, tasks)?;
    Ok(Pending {
        until,
        firsts: Vec::new(alloc),
        lasts: Vec::new(alloc),
        nexts: Vec::new(alloc),
    })
}

/// For each step the last one that goes on in its task or begins the task that it generates, or itself.
fn last_uses(alloc: Global, tasks: &Tasks) -> Result<Vec<usize>, AllocError>
    requires shaped { IsShaped tasks.now }
    ensures listed { IfOk result (λ until. length until.items ≡ length tasks.now.numbers.items) }
    ensures until { IfOk result (λ until.
        AreUntil tasks.now (length tasks.now.numbers.items) until.items) }
{
    let mut until = Vec::new(alloc);
    for at in 0..tasks.previous.len() {
        until.push(at)?;
        let before = tasks.previous[at];
        if before > 0 {
            until[before - 1] = at;
        }
    }
    Ok(until)
}

/// Notes the step at this index as the newest of this lane.
pub fn note_lane(pending: &mut Pending, lane: usize, at: usize) -> Result<(), AllocError>
    requires linked { IsLinked pending.old }
    requires at { at ≡ length pending.old.nexts.items }
    requires within { at < length pending.old.until.items }
    requires lane { lane ≤ length pending.old.firsts.items }
    ensures linked { OnOk result (IsLinked pending.new) }
    ensures same { pending.new.until ≡ pending.old.until }
    ensures count { OnOk result (length pending.new.firsts.items
        ≡ is.grown lane (length pending.old.firsts.items)) }
    ensures pending { OnOk result ((entries : List Entry) (tasks : ATasks) (from : ℕ)
        (old new : ℕ → ℕ) → ArePending entries tasks at from old pending.old
        → IsLaneMore old new at lane → ArePending entries tasks (at + 1) from new pending.new) }
{
    pending.nexts.push(at)?;
    if lane == pending.firsts.len() {
        pending.firsts.push(at)?;
        pending.lasts.push(at)?;
    } else {
        let last = pending.lasts[lane];
        pending.nexts[last] = at;
        pending.lasts[lane] = at;
    }
    Ok(())
}

/// The row that was made, where one was, as far as one from this index on may ask for what it says.
pub fn pruned_row(
    alloc: Global,
    pending: &mut Pending,
    entries: &History<'_>,
    kept: &Kept,
    made: Option<Vec<LaneBound>>,
    from: usize,
) -> Result<Option<Vec<LaneBound>>, AllocError>
    requires linked { IsLinked pending.old }
    requires listed { length pending.old.until.items ≡ length entries.now }
    requires kept { AreShared entries.now from kept.now }
    ensures linked { IsLinked pending.new }
    ensures same { is.IsSettled pending.old pending.new }
    ensures pending { (tasks : ATasks) (n : ℕ) (lane : ℕ → ℕ)
        → ArePending entries.now tasks n from lane pending.old
        → ArePending entries.now tasks n from lane pending.new }
    ensures part { IfOk result (is.IsPart pending.new made) }
{
    match made {
        None => Ok(None),
        Some(row) => {
            let left = pruned(alloc, pending, entries, kept, &row, from)?;
            Ok(Some(left))
        }
    }
}

/// The row without the bounds that tell of no step for which one from this index on may ask.
fn pruned(
    alloc: Global,
    pending: &mut Pending,
    entries: &History<'_>,
    kept: &Kept,
    row: &[LaneBound],
    from: usize,
) -> Result<Vec<LaneBound>, AllocError>
    requires linked { IsLinked pending.old }
    requires listed { length pending.old.until.items ≡ length entries.now }
    requires kept { AreShared entries.now from kept.now }
    ensures linked { IsLinked pending.new }
    ensures same { is.IsSettled pending.old pending.new }
    ensures part { IfOk result (λ left. IsPartOf pending.new row.now left.items) }
    ensures pending { (tasks : ATasks) (n : ℕ) (lane : ℕ → ℕ)
        → ArePending entries.now tasks n from lane pending.old
        → ArePending entries.now tasks n from lane pending.new }
{
    settle_all(pending, entries, kept, row, from);
    let left = left_of(alloc, &pending.firsts, row)?;
    Ok(left)
}

/// The bounds of the row that tell of the step that is listed for their lane.
fn left_of(alloc: Global, firsts: &[usize], row: &[LaneBound]) -> Result<Vec<LaneBound>, AllocError>
    ensures { IfOk result (λ left. left.items ≡ filter (is.is_left firsts.now) row.now) }
{
    let mut left = Vec::new(alloc);
    for bound in row {
        if is_first_within(firsts, *bound) {
            left.push(*bound)?;
        }
    }
    left.shrink_to_fit();
    Ok(left)
}

fn is_first_within(firsts: &[usize], bound: LaneBound) -> bool
    ensures { result ≡ is.is_left firsts.now bound }
{
    let lane = bound.lane as usize;
    let first = if lane < firsts.len() { firsts[lane] } else { 0 };
    first < bound.to as usize
}

/// Passes over the steps for which nobody asks any more in each lane of the row.
fn settle_all(
    pending: &mut Pending,
    entries: &History<'_>,
    kept: &Kept,
    row: &[LaneBound],
    from: usize,
)
    requires linked { IsLinked pending.old }
    requires listed { length pending.old.until.items ≡ length entries.now }
    requires kept { AreShared entries.now from kept.now }
    ensures linked { IsLinked pending.new }
    ensures same { is.IsSettled pending.old pending.new }
    ensures pending { (tasks : ATasks) (n : ℕ) (lane : ℕ → ℕ)
        → ArePending entries.now tasks n from lane pending.old
        → ArePending entries.now tasks n from lane pending.new }
{
    for bound in row {
        settle(pending, entries, kept, bound.lane as usize, from);
    }
}

/// Passes over the steps for which nobody asks any more at the beginning of this lane.
fn settle(pending: &mut Pending, entries: &History<'_>, kept: &Kept, lane: usize, from: usize)
    requires linked { IsLinked pending.old }
    requires listed { length pending.old.until.items ≡ length entries.now }
    requires kept { AreShared entries.now from kept.now }
    ensures linked { IsLinked pending.new }
    ensures same { is.IsSettled pending.old pending.new }
    ensures pending { (tasks : ATasks) (n : ℕ) (lane : ℕ → ℕ)
        → ArePending entries.now tasks n from lane pending.old
        → ArePending entries.now tasks n from lane pending.new }
{
    if lane < pending.firsts.len() {
        let first = first_asked(pending, entries, kept, pending.firsts[lane], from);
        pending.firsts[lane] = first;
    }
}

/// The first step of its lane, this one or one after it, for which one from the index `from` on may ask,
/// or the newest of the lane.
fn first_asked(
    pending: &Pending,
    entries: &History<'_>,
    kept: &Kept,
    first: usize,
    from: usize,
) -> usize
    requires linked { IsLinked pending.now }
    requires listed { length pending.now.until.items ≡ length entries.now }
    requires kept { AreShared entries.now from kept.now }
    requires first { first < length pending.now.nexts.items }
    ensures within { result < length pending.now.nexts.items }
    ensures pending { (tasks : ATasks) (n : ℕ) (lane : ℕ → ℕ)
        → ArePending entries.now tasks n from lane pending.now
        → (lane result ≡ lane first) × ((q : ℕ) → q < n → lane q ≡ lane first → first ≤ q
        → IsTrue (is_pending entries.now tasks from q) → result ≤ q) }
{
    let mut asked = first;
    'on: while asked < pending.nexts[asked] && !may_be_asked(pending, entries, kept, asked, from) {
        asked = pending.nexts[asked];
    }
    asked
}

/// Whether one from the index `from` on may ask for the step at `early`.
fn may_be_asked(
    pending: &Pending,
    entries: &History<'_>,
    kept: &Kept,
    early: usize,
    from: usize,
) -> bool
    requires listed { length pending.now.until.items ≡ length entries.now }
    requires early { early < length entries.now }
    requires kept { AreShared entries.now from kept.now }
    ensures { IsFalse result → (tasks : ATasks)
        → AreUntil tasks (length entries.now) pending.now.until.items
        → is_pending entries.now tasks from early ≡ false }
{
    let action = entries.action(early);
    pending.until[early] >= from || action.is_end() || is_current(entries, kept, early, from)
}

/// Whether no step before the index `from` stores or prints after the one at `early` what they share.
fn is_current(entries: &History<'_>, kept: &Kept, early: usize, from: usize) -> bool
    requires early { early < length entries.now }
    requires kept { AreShared entries.now from kept.now }
    ensures { IsFalse result → is_uncovered entries.now from early ≡ false }
{
    // for the proof: the contract speaks of it, the code doesn't
    let _from = from;
    let Some(slot) = slot_of(entries.action(early)) else {
        return false;
    };
    let writes = places_in(&kept.writes, slot);
    writes.is_empty() || writes[writes.len() - 1] <= early
}
