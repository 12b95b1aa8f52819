//! What a line of a run text comes to.

use crate::ending::Ending;
use tb_model::Event;

/// What a line of a run text comes to.
#[derive(Debug, Drop)]
pub enum LineVerdict {
    /// The judgement goes on, after the event that the line says, if it says one.
    Taken { event: Option<Event> },
    /// The judgement ends there.
    Ends { ending: Ending },
}
