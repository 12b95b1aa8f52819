//! A step that was taken back.

use tb_model::{Action, StepId};

/// A step that is in the history no more, and what it had done.
#[derive(Debug, Drop)]
pub struct Removed {
    pub id: StepId,
    pub action: Action,
}
