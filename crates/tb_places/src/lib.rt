//! Where the events of a history are: for each task, for each cell, and for the output.
#![tactic(auto)]

mod gaps;
mod marks;
mod next;
mod places;
mod rows;

pub use next::{last_place, next_place};
pub use places::Places;
