//! The children of one task by their depend items: which of them come before which, which exclude
//! each other, and which a `taskwait` covers.
#![tactic(auto)]

mod chain;
mod heads;
pub mod laws;
mod layout;
mod link;
mod lists;
mod near;
mod nearest;
mod over;
mod preds;
mod siblings;
mod steps;

pub use over::Over;
pub use preds::Preds;
pub use siblings::Siblings;
