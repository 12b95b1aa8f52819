//! The state that a history leaves, in five tables: a step on all of them, and back.
#![tactic(auto)]

mod among_tasks;
mod asking;
mod copies;
pub mod laws;
mod made_of;
mod near;
mod obstacle;
mod over;
mod reading;
mod row;
mod rows;
mod standing;
mod tables;
mod undeferred;
mod walks;

pub use obstacle::Obstacle;
pub use standing::Standing;
pub use tables::Tables;
