//! Questions to a core: what needs a step, and what does it need.

ghost use Rattle.std.specs.Prelude.{◌≡◌, ◌↔◌, IfOk, IfSome, IsErrOf, IsFalse, IsSome, IsTrue, Some, map, reverse, ◌<◌, length, vec_len, drop};
ghost use Rattle.tb_model.specs.Equivalent.{stands};
ghost use Rattle.tb_steps.specs.Scans.{history_of, step_at};
ghost use Rattle.tb_core.specs.Seen.{history};
ghost use Rattle.tb_steps.specs.Entries.{departure};
ghost use Rattle.tb_cause.specs.Chains.{needers, causes_of};

use crate::cause_refusal::CauseRefusal;
use crate::causes::causes_of;
use crate::finding::cone_in;
use std::alloc::Global;
use tb_core::{Core, History, place_in};
use tb_model::StepId;

/// The steps that need this one, directly or through others, in the order of the history.
pub fn needed_by(alloc: Global, core: &Core, step: &StepId) -> Result<Vec<StepId>, CauseRefusal>
    ensures steps { IfOk result (λ steps.
        steps.items ≡ reverse (needers step.now (history core.now.run))) }
    ensures absent { IsErrOf result CauseRefusal.NoSuchStep
        ↔ IsFalse (stands step.now (history core.now.run)) }
{
    let entries = core.legal_entries();
    let at = place_told(core, &entries, step)?;
    match cone_in(alloc, core, &entries, at, step) {
        Ok(cone) => Ok(behind_first(cone.steps)),
        Err(_) => Err(CauseRefusal::Memory),
    }
}

/// The steps that this one needs, directly or through others, in the order of the history.
pub fn needs(alloc: Global, core: &Core, step: &StepId) -> Result<Vec<StepId>, CauseRefusal>
    ensures steps { IfOk result (λ steps.
        steps.items ≡ reverse (causes_of step.now (history core.now.run))) }
    ensures absent { IsErrOf result CauseRefusal.NoSuchStep
        ↔ IsFalse (stands step.now (history core.now.run)) }
{
    let entries = core.legal_entries();
    let at = place_told(core, &entries, step)?;
    match causes_of(alloc, &entries, at) {
        Ok(steps) => Ok(steps),
        Err(_) => Err(CauseRefusal::Memory),
    }
}

/// The index of the step among these, which are the core's stored steps. It isn't looked for: the
/// indexes of its task's steps say it.
pub fn place_among(core: &Core, entries: &History<'_>, step: &StepId) -> Option<usize>
    requires { map departure (reverse entries.now) ≡ core.now.run.steps }
    ensures there { IsSome result ↔ IsTrue (stands step.now (history core.now.run)) }
    ensures step { IfSome result (λ at. step_at entries.now at ≡ Some step.now) }
    ensures within { IfSome result (λ at. at < length entries.now) }
{
    place_in(core.events_of(&step.task), entries, step)
}

fn place_told(core: &Core, entries: &History<'_>, step: &StepId) -> Result<usize, CauseRefusal>
    requires { map departure (reverse entries.now) ≡ core.now.run.steps }
    ensures place { IfOk result (λ at. step_at entries.now at ≡ Some step.now) }
    ensures within { IfOk result (λ at. at < length entries.now) }
    ensures there { IfOk result (λ at. IsTrue (stands step.now (history_of entries.now))) }
    ensures absent { IsErrOf result CauseRefusal.NoSuchStep
        ↔ IsFalse (stands step.now (history core.now.run)) }
{
    match place_among(core, entries, step) {
        Some(at) => Ok(at),
        None => Err(CauseRefusal::NoSuchStep),
    }
}

/// The steps without the first.
fn behind_first(steps: Vec<StepId>) -> Vec<StepId>
    requires { 0 < vec_len steps }
    ensures { result.items ≡ drop 1 steps.items }
{
    let mut steps = steps;
    steps.remove(0);
    steps
}
