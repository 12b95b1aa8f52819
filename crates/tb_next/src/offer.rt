//! The answer to a seat that asks for a task.

use crate::situated::Situated;

/// What a seat is offered that asks for a task.
#[derive(Debug, Drop)]
pub enum Offer {
    /// The least task that can step and that no other seat claims.
    Task(Situated),
    /// Only tasks that other seats claim can step.
    Later,
    /// No task can step.
    Done,
    /// The run is paused, or its journal is full.
    Stopped,
}
