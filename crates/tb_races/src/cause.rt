//! An immediate need of a step.

use crate::need_kind::NeedKind;
use tb_model::StepId;

/// An immediate need of a step: an earlier step, and why it is directly needed.
#[derive(Debug, Drop)]
pub struct Cause {
    pub kind: NeedKind,
    pub step: StepId,
}
