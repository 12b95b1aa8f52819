//! The tasks by name in the order of spawning, and which of them are marked.
#![tactic(auto)]

mod gapped;
pub mod laws;
mod names;
mod order;
mod ready;

pub use ready::Ready;
