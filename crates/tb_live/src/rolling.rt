//! A rollback, with its entry in the journal.

ghost use Rattle.std.specs.Prelude.{◌≡◌, ◌≤◌, IfOk, IfErr, IsOk, IsSome, IfSome, OnErr};
ghost use Rattle.tb_live.specs.Rollbacks.{EntersRollback, RefusesRollback};
ghost use Rattle.tb_live.specs.Preparing.{IsRollReadied};

use std::alloc::Global;
use tb_core::{Core, Removed, place_of};
use tb_journal::Journal;
use tb_model::{Entry, StepId};
use tb_roll::{Ready, RollRefusal, finish, ready};

/// Finds all that goes with a step, and reserves all capacity for the rollback and for its entry.
pub fn ready_roll(
    alloc: Global,
    core: &Core,
    journal: &mut Journal,
    limit: u32,
    step: &StepId,
) -> Result<(StepId, Ready), RollRefusal>
    ensures entries { journal.new.items ≡ journal.old.items }
    ensures step { IfOk result (λ r. r.0 ≡ step.now) }
    ensures readied { IfOk result (λ r. IsRollReadied limit core.now step.now journal.old.items journal.new.room r.1) }
    ensures refused { IfErr result (RefusesRollback limit core.now.run step.now journal.old.items) }
    ensures spare { journal.old.room ≤ journal.new.room }
{
    if limit as usize <= journal.len() {
        let entries = core.legal_entries();
        return Err(match place_of(&entries, step) {
            Some(_) => RollRefusal::Full,
            None => RollRefusal::NoSuchStep,
        });
    }
    let ready = match ready(alloc, core, step) {
        Ok(ready) => ready,
        Err(refusal) => return Err(refusal),
    };
    if journal.reserve().is_err() {
        return Err(RollRefusal::Memory);
    }
    match step.clone() {
        Ok(id) => Ok((id, ready)),
        Err(_) => Err(RollRefusal::Memory),
    }
}

/// Takes a step back with all that need it, and enters it for the seat: by what is reserved, where
/// something is, and then without memory.
pub fn enter_roll(
    alloc: Global,
    core: &mut Core,
    journal: &mut Journal,
    limit: u32,
    seat: u32,
    readied: Option<(StepId, Ready)>,
    step: &StepId,
) -> Result<Vec<Removed>, RollRefusal>
    requires { IfSome readied (λ r. (r.0 ≡ step.now) × IsRollReadied limit core.old step.now
        journal.old.items journal.old.room r.1) }
    ensures rolled { IfOk result (λ removed. EntersRollback limit seat core.old.run step.now
        core.new.run journal.old.items journal.new.items removed.items) }
    ensures refused { IfErr result (RefusesRollback limit core.old.run step.now journal.old.items) }
    ensures stays { OnErr result ((core.new ≡ core.old)
        × (journal.new.items ≡ journal.old.items)
        × (journal.old.room ≤ journal.new.room)) }
    ensures room { IsSome readied → IsOk result }
{
    let (id, ready) = match readied {
        Some(readied) => readied,
        None => match ready_roll(alloc, core, journal, limit, step) {
            Ok(readied) => readied,
            Err(refusal) => return Err(refusal),
        },
    };
    journal.push_reserved(Entry::Rolled { seat, id });
    Ok(finish(core, ready))
}
