//! An immediate need, with the step that has it.

use tb_model::StepId;
use tb_races::NeedKind;

/// An immediate need of a step: the earlier step, the later one that needs it, and why.
#[derive(Debug, Drop)]
pub struct Edge {
    pub earlier: StepId,
    pub later: StepId,
    pub kind: NeedKind,
}
