//! A rollback: first all memory is taken, then the steps are taken back, which can't fail.

ghost use Rattle.std.specs.Prelude.{◌≡◌, ◌<◌, ◌≤◌, IfOk, IfErr, OnOk, OnErr, IsTrue, Some, length, map, reverse};
ghost use Rattle.tb_model.specs.Equivalent.{stands};
ghost use Rattle.tb_core.specs.Rolled.{IsOfHistory, RollsBack};
ghost use Rattle.tb_steps.specs.Scans.{AreLegal, history_of, step_at};
ghost use Rattle.tb_core.specs.Seen.{history};
ghost use Rattle.tb_steps.specs.Entries.{departure};
ghost use Rattle.tb_roll.specs.Outcomes.{TellsFirst, Stays};

use crate::readied::Ready;
use crate::roll_refusal::RollRefusal;
use std::alloc::{AllocError, Global};
use tb_cause::{Cone, cone_in, place_among};
use tb_core::{Core, History, Removed, Rollback};
use tb_model::StepId;

/// Finds what goes with a step, and takes all memory for the rollback.
pub fn ready(alloc: Global, core: &Core, step: &StepId) -> Result<Ready, RollRefusal>
    ensures ready { IfOk result (λ r. IsOfHistory (history core.now.run) r.rollback) }
    ensures step { IfOk result (λ r. r.rollback.step ≡ step.now) }
    ensures stands { OnOk result (IsTrue (stands step.now (history core.now.run))) }
    ensures refused { IfErr result (Stays core.now.run step.now) }
{
    let entries = core.legal_entries();
    let Some(at) = place_among(core, &entries, step) else {
        return Err(RollRefusal::NoSuchStep);
    };
    match prepare(alloc, core, &entries, at, step) {
        Ok(rollback) => Ok(Ready { rollback }),
        Err(_) => Err(RollRefusal::Memory),
    }
}

/// Takes the steps back. It takes no memory, and can't fail.
pub fn finish(core: &mut Core, ready: Ready) -> Vec<Removed>
    requires { IsOfHistory (history core.old.run) ready.rollback }
    ensures { RollsBack core.old.run ready.rollback.step core.new.run result.items }
{
    core.take_out_all(ready.rollback)
}

/// Takes a step back with all that need it, and returns them in the order of the history.
pub fn roll(alloc: Global, core: &mut Core, step: &StepId) -> Result<Vec<Removed>, RollRefusal>
    ensures rolled { IfOk result (λ answer.
        RollsBack core.old.run step.now core.new.run answer.items) }
    ensures first { IfOk result (λ answer. TellsFirst core.old.run step.now answer.items) }
    ensures refused { IfErr result (Stays core.old.run step.now) }
    ensures err { OnErr result (core.new ≡ core.old) }
{
    match ready(alloc, core, step) {
        Ok(ready) => Ok(finish(core, ready)),
        Err(refusal) => Err(refusal),
    }
}

/// The step at this index with all that need it, and the capacity to take them back.
fn prepare(
    alloc: Global,
    core: &Core,
    entries: &History<'_>,
    at: usize,
    step: &StepId,
) -> Result<Rollback, AllocError>
    requires same { map departure (reverse entries.now) ≡ core.now.run.steps }
    requires legal { AreLegal entries.now }
    requires bound { length entries.now ≤ 1000000 }
    requires within { at < length entries.now }
    requires here { step_at entries.now at ≡ Some step.now }
    ensures ready { IfOk result (IsOfHistory (history_of entries.now)) }
    ensures step { IfOk result (λ r. r.step ≡ step.now) }
{
    let Cone { places, steps } = cone_in(alloc, core, entries, at, step)?;
    let removed = Vec::with_capacity(alloc, places.len())?;
    Ok(Rollback {
        step: step.clone()?,
        places,
        steps,
        count: entries.len() as u32,
        removed,
    })
}
