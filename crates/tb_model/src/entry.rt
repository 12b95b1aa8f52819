//! An entry of a journal.

use crate::event::Event;
use crate::step_id::StepId;

/// What was done, and which seat asked for it. An undo is a rollback of a step that nothing needs.
#[derive(Clone, Debug, Drop)]
pub enum Entry {
    /// The beginning, once, at index 0.
    Opened,
    Stepped { seat: u32, event: Event },
    Rolled { seat: u32, id: StepId },
}
