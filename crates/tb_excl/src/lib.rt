//! Which of a task's children hold what they exclude each other from.
#![tactic(auto)]

mod cells;
mod holders;
pub mod laws;

pub use holders::Holders;
