//! Questions to a core: why is a step where it is, and which steps race?

ghost use Rattle.std.specs.Prelude.{◌≡◌, ◌↔◌, IfOk, IsErrOf, IsFalse, reverse};
ghost use Rattle.tb_model.specs.Equivalent.{stands};
ghost use Rattle.tb_core.specs.Seen.{history};
ghost use Rattle.tb_races.specs.Immediate.{immediate_of};
ghost use Rattle.tb_races.specs.Racing;
ghost use Rattle.tb_order.specs.Edges;

use crate::all_edges::edges_among;
use crate::edge::Edge;
use crate::immediate::immediate;
use crate::racing::races_among;
use std::alloc::{AllocError, Global};
use tb_cause::{CauseRefusal, place_among};
use tb_core::Core;
use tb_model::StepId;
use tb_races::{Cause, Race};

/// The immediate needs of the step, each with its kind, in the order of the history.
pub fn causes(alloc: Global, core: &Core, step: &StepId) -> Result<Vec<Cause>, CauseRefusal>
    ensures causes { IfOk result (λ causes.
        causes.items ≡ reverse (immediate_of step.now (history core.now.run))) }
    ensures absent { IsErrOf result CauseRefusal.NoSuchStep
        ↔ IsFalse (stands step.now (history core.now.run)) }
{
    let entries = core.legal_entries();
    let Some(at) = place_among(core, &entries, step) else {
        return Err(CauseRefusal::NoSuchStep);
    };
    match immediate(alloc, &entries, at) {
        Ok(causes) => Ok(causes),
        Err(_) => Err(CauseRefusal::Memory),
    }
}

/// For each step that races with earlier ones the race that is named, in the order of the history:
/// with the newest from which exclusion doesn't separate it, else with the newest.
pub fn races(alloc: Global, core: &Core) -> Result<Vec<Race>, AllocError>
    ensures { IfOk result (λ races.
        races.items ≡ reverse (Racing.races (history core.now.run))) }
{
    let entries = core.legal_entries();
    races_among(alloc, &entries)
}

/// The immediate needs of all steps, each with its kind, in the order of the history.
pub fn edges(alloc: Global, core: &Core) -> Result<Vec<Edge>, AllocError>
    ensures { IfOk result (λ edges.
        edges.items ≡ reverse (Edges.edges (history core.now.run))) }
{
    let entries = core.legal_entries();
    edges_among(alloc, &entries)
}
