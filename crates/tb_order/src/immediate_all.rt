//! What a step needs immediately, after those in front of it.

ghost use Rattle.std.specs.Prelude.{◌≡◌, ◌<◌, ◌≤◌, ◌+◌, ◌++◌, ℕ, List, IfOk, IfSome, OnOk, IsTrue, Some, is_some, get_or, length, map, reverse, take};
ghost use Rattle.tb_steps.specs.Entries.{Entry};
ghost use Rattle.tb_steps.specs.Scans.{AreLegal, history_of};
ghost use Rattle.tb_races.specs.declared.cause.Cause.{Cause as ACause};
ghost use Rattle.tb_lanes.specs.declared.tasks.Tasks.{Tasks as ATasks};
ghost use Rattle.tb_order.specs.AllNeeds.{AreDirect, AreNeeds, GoesBehind, IsMade};
ghost use Rattle.tb_lanes.specs.Clocks as is;
ghost use Rattle.tb_lanes.specs.Clocks.{AreOrdinals, AreTasks, IsShaped, lanes_of};
ghost use Rattle.tb_order.specs.Edges.{as_edge};
ghost use Rattle.tb_lanes.specs.Needing.{place_at};
ghost use Rattle.tb_order.specs.Told.{told};

use crate::edge::Edge;
use crate::merging::{add, advance, begin, lane_behind, no_clocks, nothing_past};
use crate::needing::{candidates, needed_among, untold};
use crate::needs::Needs;
use crate::ordinals::named;
use crate::pending::{no_lanes, note_lane, pruned_row};
use crate::sharing::note_shared;
use crate::waiting::kind_at;
use std::alloc::{AllocError, Global};
use tb_core::History;
use tb_lanes::{Clocks, LaneBound, Step, Tasks, nothing};
use tb_model::StepId;
use tb_races::Cause;

/// Nothing is known of any step yet.
pub fn no_needs(alloc: Global, tasks: &Tasks) -> Result<Needs, AllocError>
    requires shaped { IsShaped tasks.now }
    ensures { IfOk result (λ needs. (entries : List Entry) → AreTasks entries tasks.now
        → AreNeeds entries tasks.now 0 needs) }
{
    let pending = no_lanes(alloc, tasks)?;
    Ok(Needs {
        alloc,
        past: nothing_past(alloc, true),
        clocks: no_clocks(alloc),
        kept: nothing(alloc),
        pending,
    })
}

/// Adds the step at this index, and returns those that it needs immediately, the newest first.
pub fn take_step(
    needs: &mut Needs,
    entries: &History<'_>,
    tasks: &Tasks,
    at: usize,
) -> Result<Vec<usize>, AllocError>
    requires legal { AreLegal entries.now }
    requires tasks { AreTasks entries.now tasks.now }
    requires at { at < length entries.now }
    requires needs { AreNeeds entries.now tasks.now at needs.old }
    ensures needs { OnOk result (AreNeeds entries.now tasks.now (at + 1) needs.new) }
    ensures places { IfOk result (λ places. AreDirect entries.now at places.items) }
{
    let alloc = needs.alloc;
    let behind = advance(alloc, entries, tasks, &mut needs.past, at)?;
    let step = begin(tasks, &needs.clocks, at);
    let may = candidates(alloc, &needs.past.joined, &needs.kept, entries.action(at))?;
    let found = untold(alloc, entries, tasks, &needs.clocks, &step, &may)?;
    let (made, places) = needed_among(alloc, entries, tasks, &needs.clocks, &step, found)?;
    let lane = lane_on(&needs.clocks, step.lane, behind);
    note_shared(&mut needs.kept, entries, at)?;
    let left = pruned_row(
        alloc,
        &mut needs.pending,
        entries,
        &needs.kept,
        made,
        at + 1,
    )?;
    note_lane(&mut needs.pending, lane, at)?;
    let row = row_of(&mut needs.clocks, step.row, left)?;
    add(&mut needs.clocks, &Step { at, row, lane })?;
    Ok(places)
}

/// The lane of a step, where it may go on in that of this end.
fn lane_on(clocks: &Clocks, lane: usize, behind: Option<usize>) -> usize
    requires end { IfSome behind (λ x. (x < length clocks.now.lanes.items)
        × (is.lane (lanes_of clocks.now) x < length clocks.now.lasts.items)) }
    requires lane { lane ≤ length clocks.now.lasts.items }
    ensures { GoesBehind (lanes_of clocks.now) lane behind result }
{
    match behind {
        None => lane,
        Some(end) => lane_behind(clocks, lane, end),
    }
}

/// The index of the row that was made, which is added, or of the other where none was.
fn row_of(
    clocks: &mut Clocks,
    row: usize,
    made: Option<Vec<LaneBound>>,
) -> Result<usize, AllocError>
    ensures { IfOk result (λ n. IsMade clocks.old row made clocks.new n) }
{
    match made {
        None => Ok(row),
        Some(made) => {
            clocks.rows.push(made)?;
            Ok(clocks.rows.len())
        }
    }
}

/// The steps at these indexes, as what the step at the other needs immediately.
pub fn causes_of(
    alloc: Global,
    entries: &History<'_>,
    tasks: &Tasks,
    ordinals: &[u32],
    at: usize,
    places: &[usize],
) -> Result<Vec<Cause>, AllocError>
    requires legal { AreLegal entries.now }
    requires tasks { AreTasks entries.now tasks.now }
    requires at { at < length entries.now }
    requires listed { length ordinals.now ≡ length entries.now }
    requires told { AreOrdinals entries.now (length entries.now) ordinals.now }
    requires low { (i : ℕ) → i < length places.now → place_at places.now i < at }
    requires near { (v : Entry) → v ≡ get_or entries.now at v → (i : ℕ) → i < length places.now
        → IsTrue (is_some (told (take at entries.now) v.event (place_at places.now i))) }
    ensures { IfOk result (λ causes. (v : Entry) → v ≡ get_or entries.now at v →
        map (λ (c : ACause). Some c) causes.items
        ≡ map (told (take at entries.now) v.event) places.now) }
{
    let mut causes = Vec::new(alloc);
    for place in places {
        let kind = kind_at(entries, tasks, at, *place).unwrap();
        let step = named(entries, ordinals, *place)?;
        causes.push(Cause { kind, step })?;
    }
    Ok(causes)
}

/// These immediate needs of the later step.
pub fn edges_of(alloc: Global, later: &StepId, causes: &[Cause]) -> Result<Vec<Edge>, AllocError>
    ensures { IfOk result (λ edges. edges.items ≡ map (as_edge later.now) causes.now) }
{
    let mut edges = Vec::new(alloc);
    for cause in causes {
        edges.push(Edge {
            earlier: cause.step.clone()?,
            later: later.clone()?,
            kind: cause.kind,
        })?;
    }
    Ok(edges)
}
