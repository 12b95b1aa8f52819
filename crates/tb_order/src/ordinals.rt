//! Which step of its task each step of a history is.

ghost use Rattle.std.specs.Prelude.{◌≡◌, ◌<◌, ◌≤◌, ◌+◌, ℕ, List, Some, suc, length, take, slice_get, slice_index_or, IfOk};
ghost use Rattle.tb_steps.specs.Entries.{Entry};
ghost use Rattle.tb_steps.specs.Scans.{history_of, step_at};
ghost use Rattle.tb_model.specs.Facts;
ghost use Rattle.tb_lanes.specs.Clocks.{AreOrdinals, AreTasks, IsShaped};

use std::alloc::{AllocError, Global};
use tb_core::History;
use tb_lanes::{Tasks, step_before};
use tb_model::StepId;

/// The ordinal of each of these stored steps among the steps of its task.
pub fn ordinals_of(
    alloc: Global,
    entries: &History<'_>,
    tasks: &Tasks,
) -> Result<Vec<u32>, AllocError>
    requires tasks { AreTasks entries.now tasks.now }
    requires bound { length entries.now ≤ 1000000 }
    ensures listed { IfOk result (λ ks. length ks.items ≡ length entries.now) }
    ensures told { IfOk result (λ ks. AreOrdinals entries.now (length entries.now) ks.items) }
{
    let mut ordinals = Vec::new(alloc);
    for at in 0..entries.len() {
        let next = next_ordinal(tasks, &ordinals, at);
        ordinals.push(next)?;
    }
    Ok(ordinals)
}

/// The ordinal of the step at this index, where those in front of it have theirs.
fn next_ordinal(tasks: &Tasks, ordinals: &[u32], at: usize) -> u32
    requires shaped { IsShaped tasks.now }
    requires at { at < length tasks.now.numbers.items }
    requires bound { at < 1000000 }
    requires listed { length ordinals.now ≡ at }
    requires low { (p : ℕ) → p < at → slice_index_or ordinals.now p 0 ≤ p + 1 }
    ensures low { result ≤ at + 1 }
    ensures told { (entries : List Entry) → AreTasks entries tasks.now → AreOrdinals entries at ordinals.now → (v : Entry) → slice_get entries at ≡ Some v →
        result ≡ suc (length (Facts.own v.event.task (history_of (take at entries)))) }
{
    match step_before(tasks, at) {
        Some(before) => ordinals[before] + 1,
        None => 1,
    }
}

/// The step at this index.
pub fn named(entries: &History<'_>, ordinals: &[u32], at: usize) -> Result<StepId, AllocError>
    requires at { at < length entries.now }
    requires listed { length ordinals.now ≡ length entries.now }
    requires told { AreOrdinals entries.now (length entries.now) ordinals.now }
    ensures { IfOk result (λ id. step_at entries.now at ≡ Some id) }
{
    Ok(StepId {
        task: entries.task(at).clone()?,
        k: ordinals[at],
    })
}
