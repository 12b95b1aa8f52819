//! The answer to a seat that asks for work.

use crate::work::Work;

/// What a seat gets that asks for work.
#[derive(Debug, Drop)]
pub enum Claim {
    /// The least task that can step and that no other seat claims.
    Work(Work),
    /// Only tasks that other seats claim can step.
    Later,
    /// No task can step.
    Done,
    /// The run is paused, or its journal is full.
    Stopped,
}
