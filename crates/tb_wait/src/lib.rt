//! Which children of a task, and which members of its open groups, haven't ended.
#![tactic(auto)]

mod children;
mod few;
mod finding;
mod groups;
pub mod laws;
mod many;
mod names;
mod near;
mod node;
mod nodes;
mod numbers;
mod row;
mod rows;
mod search;
mod stacks;
mod standing;
mod stored;
mod tree;
mod wait;

pub use wait::Wait;
