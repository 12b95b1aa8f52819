//! An undo, with its entry in the journal.

ghost use Rattle.std.specs.Prelude.{◌≡◌, ◌<◌, ◌≤◌, None, IfOk, IfErr, IsOk, OnOk, OnErr};
ghost use Rattle.tb_core.specs.Outcomes.{IsFree, Keeps};
ghost use Rattle.tb_live.specs.Preparing.{HoldsRoll, MayRoll};
ghost use Rattle.tb_live.specs.Rollbacks.{EntersUndo, RefusesUndo};

use crate::prepared::{Prepared, forget, holds_roll, take_names};
use std::alloc::AllocError;
use tb_core::{Core, Removed, UndoRefusal};
use tb_journal::Journal;
use tb_model::{Entry, StepId};

/// Takes a step back that nothing needs, and enters it for the seat, where the journal has a slot:
/// by what is prepared for its rollback, where that is, and then without memory. A refusal retains
/// what is prepared.
pub fn enter_undo(
    core: &mut Core,
    journal: &mut Journal,
    prepared: &mut Option<Prepared>,
    seat: u32,
    id: &StepId,
) -> Result<Removed, UndoRefusal>
    requires { HoldsRoll prepared.old seat id.now → MayRoll journal.old.room id.now prepared.old }
    ensures undone { IfOk result (EntersUndo seat core.old.run id.now
        core.new.run journal.old.items journal.new.items) }
    ensures given_up { OnOk result (prepared.new ≡ None) }
    ensures refused { IfErr result (RefusesUndo core.old.run id.now) }
    ensures stays { OnErr result ((core.new ≡ core.old)
        × (journal.new.items ≡ journal.old.items)
        × (journal.old.room ≤ journal.new.room)
        × (prepared.new ≡ prepared.old)) }
    ensures room { HoldsRoll prepared.old seat id.now → IsFree core.old.run id.now → IsOk result }
{
    if holds_roll(prepared, seat, id) {
        return enter_prepared(core, journal, prepared, seat, id);
    }
    match fresh_names(journal, id) {
        Ok((id, name)) => enter_named(core, journal, prepared, seat, id, name),
        Err(_) => Err(core.keeps(id).unwrap_or(UndoRefusal::Memory)),
    }
}

/// Two names of the step, one for its undo and one for its entry, for which the journal has
/// capacity.
fn fresh_names(journal: &mut Journal, step: &StepId) -> Result<(StepId, StepId), AllocError>
    ensures entries { journal.new.items ≡ journal.old.items }
    ensures names { IfOk result (λ p. (p.0 ≡ step.now) × (p.1 ≡ step.now)) }
    ensures free { OnOk result (0 < journal.new.room) }
    ensures spare { journal.old.room ≤ journal.new.room }
{
    journal.reserve()?;
    let id = step.clone()?;
    let name = step.clone()?;
    Ok((id, name))
}

/// Takes back the step by the two names that are prepared, and enters that. They serve no longer
/// once they are taken, so it is asked first whether the step stays.
fn enter_prepared(
    core: &mut Core,
    journal: &mut Journal,
    prepared: &mut Option<Prepared>,
    seat: u32,
    id: &StepId,
) -> Result<Removed, UndoRefusal>
    requires { MayRoll journal.old.room id.now prepared.old }
    ensures undone { IfOk result (EntersUndo seat core.old.run id.now
        core.new.run journal.old.items journal.new.items) }
    ensures given_up { OnOk result (prepared.new ≡ None) }
    ensures refused { IfErr result (Keeps core.old.run id.now) }
    ensures stays { OnErr result ((core.new ≡ core.old)
        × (journal.new.items ≡ journal.old.items)
        × (journal.old.room ≤ journal.new.room)
        × (prepared.new ≡ prepared.old)) }
    ensures succeeds { IsFree core.old.run id.now → IsOk result }
{
    if let Some(refusal) = core.keeps(id) {
        return Err(refusal);
    }
    match take_names(prepared) {
        Some((id, name)) => enter_named(core, journal, prepared, seat, id, name),
        None => unreachable!(),
    }
}

/// Takes back the step by two names of it, one for its undo and one for its entry, and enters that.
/// What is prepared is given up, but at no refusal.
fn enter_named(
    core: &mut Core,
    journal: &mut Journal,
    prepared: &mut Option<Prepared>,
    seat: u32,
    id: StepId,
    name: StepId,
) -> Result<Removed, UndoRefusal>
    requires same { name ≡ id }
    requires room { 0 < journal.old.room }
    ensures undone { IfOk result (EntersUndo seat core.old.run id
        core.new.run journal.old.items journal.new.items) }
    ensures given_up { OnOk result (prepared.new ≡ None) }
    ensures refused { IfErr result (Keeps core.old.run id) }
    ensures stays { OnErr result ((core.new ≡ core.old)
        × (journal.new.items ≡ journal.old.items)
        × (journal.old.room ≤ journal.new.room)
        × (prepared.new ≡ prepared.old)) }
    ensures succeeds { IsFree core.old.run id → IsOk result }
{
    match core.undo(id) {
        Ok(removed) => {
            forget(prepared);
            journal.push_reserved(Entry::Rolled { seat, id: name });
            Ok(removed)
        }
        Err(refusal) => Err(refusal),
    }
}
