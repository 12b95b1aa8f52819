//! What a history says of its tasks, event by event: the tables that the clocks of a run ask.
#![tactic(auto)]

mod group;
mod ids;
mod row;
mod rows;
mod tasks;

pub use group::Group;
pub use ids::Ids;
pub use tasks::Tasks;
