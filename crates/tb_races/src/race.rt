//! Two steps that race.

use crate::conflict::Conflict;
use tb_model::StepId;

/// Two steps that conflict, and that synchronisation leaves unordered.
#[derive(Debug, Drop)]
pub struct Race {
    pub earlier: StepId,
    pub later: StepId,
    pub conflict: Conflict,
    /// Whether exclusion forbids the two to be under way at once.
    pub apart: bool,
}
