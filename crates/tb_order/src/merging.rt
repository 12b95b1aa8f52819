//! The clocks of a history.

ghost use Rattle.std.specs.Prelude.{◌≡◌, ◌≢◌, IfSome, ◌⊎◌, ◌<◌, ◌≤◌, ◌+◌, ◌||◌, ◌&&◌, ◌==◌, ℕ, Bool, List, Vec, Some, false, length, nat_lt, slice_index_or, IfOk, IsTrue, OnOk};
ghost use Rattle.tb_steps.specs.Entries.{Entry};
ghost use Rattle.tb_steps.specs.Scans.{AreLegal};
ghost use Rattle.tb_races.specs.Orders.{Order};
ghost use Rattle.tb_lanes.specs.Clocks as is;
ghost use Rattle.tb_lanes.specs.Clocks.{AreClocks, AreEnds, AreTasks, GoesOn, IsLane, IsLow, IsOneMore, IsShaped, IsSound, IsStanding, adds, end_at, lane, lanes_of, links_at, number, row_in};
ghost use Rattle.tb_lanes.specs.Bounds.{IsRising, bound_in};
ghost use Rattle.tb_lanes.specs.Fewer.{AreFewer, BeginsFor};
ghost use Rattle.tb_lanes.specs.Rows.{AreJoined, AreRows, IsNoted, IsPast, IsRow, IsTold, IsWaiting, JoinsMore, parent, starts_at};
ghost use Rattle.tb_lanes.specs.Linking.{order_of};
ghost use Rattle.tb_order.specs.Pending.{grown};
ghost use Rattle.tb_lanes.specs.Needing.{FindsEnds, IsEndBefore, IsOwn};
ghost use Rattle.tb_lanes.specs.declared.tasks.Tasks.{Tasks as ATasks};

use crate::asked::merge_all;
use crate::grouping::first_asked;
use crate::joining::{is_merged, join};
use crate::noting::note_rows;
use crate::waiting::{may_wait, waits};
use indexmap::IndexMap;
use std::alloc::{AllocError, Global};
use tb_core::History;
use tb_lanes::{
    Clocks, Ends, Joined, Past, Step, Tasks, Waiter, add_row, bound, bound_among, no_ends,
    note_end, parent_of, row, step_before, whole,
};

/// No clocks yet.
pub fn no_clocks(alloc: Global) -> Clocks
    ensures clocks { (o : Order) (entries : List Entry) (tasks : ATasks) →
        AreClocks o entries tasks 0 result }
    ensures none { length result.lasts.items ≡ 0 }
{
    Clocks {
        of: Vec::new(alloc),
        rows: Vec::new(alloc),
        lanes: Vec::new(alloc),
        lasts: Vec::new(alloc),
    }
}

/// An order of no steps.
pub fn nothing_past(alloc: Global, exclusion: bool) -> Past
    ensures past { (entries : List Entry) (tasks : ATasks) → IsPast entries tasks result 0 }
    ensures same { result.exclusion ≡ exclusion }
{
    Past {
        alloc,
        exclusion,
        clocks: no_clocks(alloc),
        ends: no_ends(alloc),
        rows: IndexMap::new(alloc),
        free: 0,
        joined: Vec::new(alloc),
    }
}

/// Adds the step at this index to the order, and returns an end after which it comes, where it goes
/// on in the lane of one.
pub fn advance(
    alloc: Global,
    entries: &History<'_>,
    tasks: &Tasks,
    past: &mut Past,
    at: usize,
) -> Result<Option<usize>, AllocError>
    requires legal { AreLegal entries.now }
    requires tasks { AreTasks entries.now tasks.now }
    requires at { at < length entries.now }
    requires past { IsPast entries.now tasks.now past.old at }
    ensures past { OnOk result (IsPast entries.now tasks.now past.new (at + 1)) }
    ensures same { past.new.exclusion ≡ past.old.exclusion }
    ensures joined { OnOk result
        (FindsEnds (order_of past.old.exclusion) entries.now at past.new.joined.items) }
    ensures behind { IfOk result (λ o. (x : ℕ) → o ≡ Some x
        → IsEndBefore (order_of past.old.exclusion) entries.now at x) }
{
    let first = begin(tasks, &past.clocks, at);
    let lane = first.lane;
    let step = finish(alloc, entries, tasks, past, first)?;
    let behind = behind_of(&past.clocks, lane, step.lane);
    add(&mut past.clocks, &step)?;
    note_over(alloc, entries, tasks, past, at)?;
    Ok(behind)
}

/// The newest step of the lane, where it is another than the first.
fn behind_of(clocks: &Clocks, first: usize, lane: usize) -> Option<usize>
    requires { (lane ≡ first) ⊎ (lane < length clocks.now.lasts.items) }
    ensures { IfSome result (λ x. (lane ≢ first) × (x ≡ slice_index_or clocks.now.lasts.items lane 0)) }
{
    if lane == first {
        None
    } else {
        Some(clocks.lasts[lane])
    }
}

/// Notes the step at this index among the ends, where it is one.
fn note_over(
    alloc: Global,
    entries: &History<'_>,
    tasks: &Tasks,
    past: &mut Past,
    at: usize,
) -> Result<(), AllocError>
    requires legal { AreLegal entries.now }
    requires tasks { AreTasks entries.now tasks.now }
    requires at { at < length entries.now }
    requires clocks { AreClocks (order_of past.old.exclusion) entries.now tasks.now (at + 1)
        past.old.clocks }
    requires ends { AreEnds (order_of past.old.exclusion) entries.now at past.old.ends }
    requires rows { AreRows (order_of past.old.exclusion) entries.now
        (IsNoted entries.now tasks.now at) past.old.rows.entries }
    ensures past { OnOk result (IsPast entries.now tasks.now past.new (at + 1)) }
    ensures same { past.new.exclusion ≡ past.old.exclusion }
    ensures joined { past.new.joined ≡ past.old.joined }
{
    if entries.action(at).is_end() {
        note_end(tasks, &past.clocks, &mut past.ends, at)?;
        note_rows(alloc, entries, tasks, &past.clocks, &mut past.rows, at)?;
    }
    Ok(())
}

/// The step at this index, with the row and the lane of the step of its task in front of it, else
/// with none and a new lane.
pub fn begin(tasks: &Tasks, clocks: &Clocks, at: usize) -> Step
    requires shaped { IsShaped tasks.now }
    requires listed { at ≡ length clocks.now.of.items }
    requires laned { at ≡ length clocks.now.lanes.items }
    requires at { at < length tasks.now.numbers.items }
    ensures at { result.at ≡ at }
    ensures row { (o : Order) (entries : List Entry) → AreTasks entries tasks.now
        → AreClocks o entries tasks.now at clocks.now → result.row ≤ length clocks.now.rows.items }
    ensures rising { (o : Order) (entries : List Entry) → AreTasks entries tasks.now
        → AreClocks o entries tasks.now at clocks.now
        → IsRising (row_in clocks.now.rows.items result.row) }
    ensures sound { (o : Order) (entries : List Entry) → AreLegal entries
        → AreTasks entries tasks.now → AreClocks o entries tasks.now at clocks.now
        → IsSound o entries tasks.now (lanes_of clocks.now)
        (bound_in (row_in clocks.now.rows.items result.row)) result.lane at }
    ensures lane { (o : Order) (entries : List Entry) → AreLegal entries
        → AreTasks entries tasks.now → AreClocks o entries tasks.now at clocks.now
        → IsLane entries (lanes_of clocks.now) result.lane at }
    ensures own { (o : Order) (entries : List Entry) → AreLegal entries
        → AreTasks entries tasks.now → AreClocks o entries tasks.now at clocks.now
        → IsOwn o entries tasks.now (lanes_of clocks.now)
        (bound_in (row_in clocks.now.rows.items result.row)) result.lane at }
    ensures fewer { (asked : ℕ → Bool) (o : Order) (entries : List Entry) → AreLegal entries
        → AreTasks entries tasks.now → AreFewer asked o entries tasks.now at clocks.now
        → BeginsFor asked o entries tasks.now clocks.now result.row result.lane at }
{
    match step_before(tasks, at) {
        Some(before) => Step {
            at,
            row: clocks.of[before],
            lane: clocks.lanes[before],
        },
        None => Step {
            at,
            row: 0,
            lane: clocks.lasts.len(),
        },
    }
}

/// The step with its own row, in which all ends are to which it is linked, and with its own lane.
fn finish(
    alloc: Global,
    entries: &History<'_>,
    tasks: &Tasks,
    past: &mut Past,
    step: Step,
) -> Result<Step, AllocError>
    requires legal { AreLegal entries.now }
    requires tasks { AreTasks entries.now tasks.now }
    requires at { step.at < length entries.now }
    requires past { IsPast entries.now tasks.now past.old step.at }
    requires row { step.row ≤ length past.old.clocks.rows.items }
    requires rising { IsRising (row_in past.old.clocks.rows.items step.row) }
    requires sound { IsSound (order_of past.old.exclusion) entries.now tasks.now
        (lanes_of past.old.clocks) (bound_in (row_in past.old.clocks.rows.items step.row))
        step.lane step.at }
    requires lane { IsLane entries.now (lanes_of past.old.clocks) step.lane step.at }
    requires own { IsOwn (order_of past.old.exclusion) entries.now tasks.now
        (lanes_of past.old.clocks) (bound_in (row_in past.old.clocks.rows.items step.row))
        step.lane step.at }
    ensures at { IfOk result (λ s. s.at ≡ step.at) }
    ensures past { OnOk result (IsPast entries.now tasks.now past.new step.at) }
    ensures same { past.new.exclusion ≡ past.old.exclusion }
    ensures stands { IfOk result (λ s. IsStanding (order_of past.old.exclusion) entries.now
        tasks.now past.new.clocks s.row s.lane step.at) }
    ensures joined { OnOk result
        (FindsEnds (order_of past.old.exclusion) entries.now step.at past.new.joined.items) }
    ensures lane { IfOk result (λ s. (s.lane ≡ step.lane)
        ⊎ ((s.lane < length past.new.clocks.lasts.items)
        × IsEndBefore (order_of past.old.exclusion) entries.now step.at
        (slice_index_or past.new.clocks.lasts.items s.lane 0))) }
{
    past.free = first_free(&past.clocks, &past.ends, past.free);
    past.joined = Vec::new(alloc);
    if !may_wait(entries, tasks, step.at) {
        return Ok(stay(tasks, &past.clocks, &past.ends, past.free, step));
    }
    let mut joined = Joined {
        rows: Vec::new(alloc),
        end: None,
        ends: Vec::new(alloc),
    };
    let own = Vec::from_slice(alloc, row(&past.clocks.rows, step.row))?;
    add_row(alloc, &mut joined.rows, own)?;
    let waiter = Waiter {
        at: step.at,
        lane: step.lane,
        parent: whose_children(entries, tasks, step.at),
        from: first_asked(entries, tasks, step.at),
    };
    merge_all(&mut joined, &waiter, entries, tasks, past)?;
    past.joined = joined.ends;
    match joined.end {
        None => Ok(stay(tasks, &past.clocks, &past.ends, past.free, step)),
        Some(end) => {
            let merged = whole(alloc, joined.rows)?;
            let row = Vec::from_slice(alloc, &merged)?;
            past.clocks.rows.push(row)?;
            Ok(Step {
                at: step.at,
                row: past.clocks.rows.len(),
                lane: lane_behind(&past.clocks, step.lane, end),
            })
        }
    }
}

/// For whose children the step at this index may wait: a start for those of its parent, others for
/// their own.
fn whose_children(entries: &History<'_>, tasks: &Tasks, at: usize) -> usize
    requires tasks { AreTasks entries.now tasks.now }
    requires at { at < length entries.now }
    ensures start { IsTrue (starts_at entries.now at) → result ≡ parent tasks.now at }
    ensures other { starts_at entries.now at ≡ false → result ≡ number tasks.now at }
{
    if entries.action(at).is_start() {
        parent_of(tasks, at)
    } else {
        tasks.numbers[at]
    }
}

/// The index of the first end, this one or one after it, in whose lane no step went on.
fn first_free(clocks: &Clocks, ends: &Ends, from: usize) -> usize
    requires ends { (i : ℕ) → i < length ends.now.places.items
        → end_at ends.now i < length clocks.now.lanes.items }
    requires few { (q : ℕ) → q < length clocks.now.lanes.items
        → lane (lanes_of clocks.now) q < length clocks.now.lasts.items }
    ensures { from ≤ result }
{
    let mut free = from;
    'pass: while free < ends.places.len() {
        let end = ends.places[free];
        if clocks.lasts[clocks.lanes[end]] == end {
            return free;
        }
        free += 1;
    }
    free
}

/// The step with its row as it is. One that opens a lane goes on in that of the end with this
/// index, where that is in front of it: what generates its task may have waited for it.
fn stay(tasks: &Tasks, clocks: &Clocks, ends: &Ends, free: usize, step: Step) -> Step
    requires shaped { IsShaped tasks.now }
    requires listed { step.at ≡ length clocks.now.of.items }
    requires laned { step.at ≡ length clocks.now.lanes.items }
    requires at { step.at < length tasks.now.numbers.items }
    requires ends { (i : ℕ) → i < length ends.now.places.items → end_at ends.now i < step.at }
    requires few { (q : ℕ) → q < step.at
        → lane (lanes_of clocks.now) q < length clocks.now.lasts.items }
    requires lane { step.lane ≤ length clocks.now.lasts.items }
    ensures at { result.at ≡ step.at }
    ensures row { result.row ≡ step.row }
    ensures lane { (o : Order) (entries : List Entry) → AreTasks entries tasks.now
        → AreClocks o entries tasks.now step.at clocks.now → AreEnds o entries step.at ends.now
        → IsRising (row_in clocks.now.rows.items step.row)
        → GoesOn o entries tasks.now (lanes_of clocks.now)
        (bound_in (row_in clocks.now.rows.items step.row)) step.lane step.at result.lane }
{
    if step.lane < clocks.lasts.len() || free >= ends.places.len() {
        return step;
    }
    let end = ends.places[free];
    let waiter = Waiter {
        at: step.at,
        lane: step.lane,
        parent: 0,
        from: 0,
    };
    let row = row(&clocks.rows, step.row);
    if !is_merged(tasks, clocks, bound(row, clocks.lanes[end]), &waiter, end) {
        return step;
    }
    Step {
        at: step.at,
        row: step.row,
        lane: lane_behind(clocks, step.lane, end),
    }
}

/// The lane of a step that comes after this end: a step that opens a lane goes on in that of the
/// end where nothing else does.
pub fn lane_behind(clocks: &Clocks, lane: usize, end: usize) -> usize
    requires end { end < length clocks.now.lanes.items }
    requires few { is.lane (lanes_of clocks.now) end < length clocks.now.lasts.items }
    requires lane { lane ≤ length clocks.now.lasts.items }
    ensures { (result ≡ lane) ⊎ ((lane ≡ length clocks.now.lasts.items)
        × (result ≡ is.lane (lanes_of clocks.now) end)
        × (slice_index_or clocks.now.lasts.items (is.lane (lanes_of clocks.now) end) 0 ≡ end)) }
{
    let behind = clocks.lanes[end];
    if lane == clocks.lasts.len() && clocks.lasts[behind] == end {
        behind
    } else {
        lane
    }
}

/// Adds the step to the clocks.
pub fn add(clocks: &mut Clocks, step: &Step) -> Result<(), AllocError>
    requires few { step.now.lane ≤ length clocks.old.lasts.items }
    ensures one { OnOk result
        (IsOneMore clocks.old step.now.row step.now.lane step.now.at clocks.new) }
    ensures count { OnOk result (length clocks.new.lasts.items
        ≡ grown step.now.lane (length clocks.old.lasts.items)) }
{
    clocks.of.push(step.row)?;
    clocks.lanes.push(step.lane)?;
    if step.lane == clocks.lasts.len() {
        clocks.lasts.push(step.at)?;
    } else {
        clocks.lasts[step.lane] = step.at;
    }
    Ok(())
}

/// Adds the ends of the row to which the step is linked, with all that is in front of them.
pub fn merge(
    joined: &mut Joined,
    waiter: &Waiter,
    entries: &History<'_>,
    tasks: &Tasks,
    past: &Past,
    ends: &Ends,
) -> Result<(), AllocError>
    requires waiting { IsWaiting entries.now tasks.now past.now waiter.now }
    requires joined { AreJoined entries.now tasks.now past.now waiter.now.lane waiter.now.at joined.old }
    requires row { IsRow (order_of past.now.exclusion) entries.now waiter.now.at ends.now }
    ensures more { OnOk result
        (JoinsMore entries.now tasks.now past.now waiter.now.lane waiter.now.at joined.old joined.new) }
    ensures told { OnOk result ((i : ℕ) → i < length ends.now.places.items
        → IsTrue (links_at (order_of past.now.exclusion) entries.now waiter.now.at (end_at ends.now i))
        → IsTold entries.now tasks.now past.now waiter.now.lane waiter.now.at joined.new
        (end_at ends.now i)) }
{
    let mut left = ends.places.len();
    'back: while left > 0 {
        left -= 1;
        let end = ends.places[left];
        if end < waiter.from {
            return Ok(());
        }
        let told = bound_among(&joined.rows, past.clocks.lanes[end]);
        if is_merged(tasks, &past.clocks, told, waiter, end) {
            left = ends.skips[left];
        } else if waits(past.exclusion, entries, tasks, waiter.at, end) {
            join(
                past.alloc,
                &mut joined.rows,
                tasks,
                &past.clocks,
                waiter,
                end,
            )?;
            left = ends.skips[left];
            joined.ends.push(end)?;
            joined.end = Some(better(&past.clocks, joined.end, end));
        }
    }
    Ok(())
}

/// Of an end that was found and a further one, the one in whose lane a step may go on.
fn better(clocks: &Clocks, found: Option<usize>, end: usize) -> usize
    requires end { end < length clocks.now.lanes.items }
    requires few { is.lane (lanes_of clocks.now) end < length clocks.now.lasts.items }
    ensures { (result ≡ end) ⊎ (found ≡ Some result) }
{
    match found {
        Some(other) if clocks.lasts[clocks.lanes[end]] != end => other,
        _ => end,
    }
}
