//! Why a step needs another, and which steps race: the answers of a core.
#![tactic(auto)]

mod all_edges;
mod asked;
mod asking;
mod edge;
mod edge_walk;
mod grouping;
mod immediate;
mod immediate_all;
mod joining;
mod kinds;
mod merging;
mod needing;
mod needs;
mod noting;
mod numbering;
mod ordinals;
mod pending;
mod race_walk;
mod racing;
mod sharing;
mod waiting;

pub use all_edges::count_edges;
pub use asking::{causes, edges, races};
pub use edge::Edge;
pub use edge_walk::EdgeWalk;
pub use race_walk::RaceWalk;
pub use racing::count_races;
