//! What an order puts in front of each step of a history, by lanes: the rows of bounds and the tables
//! that store it, and the definitions by which their contracts speak of a history.
#![tactic(auto)]

mod asking;
mod bounds;
mod clocks;
mod ends;
mod joined;
mod kept;
mod lane_bound;
mod past;
mod rows;
mod step;
mod tasks;
mod waiter;

pub use asking::{covers, kind_asked, waits_by_itself};
pub use bounds::{add_row, bound, bound_among, merged, whole};
pub use clocks::{Clocks, reaches, row};
pub use ends::{Ends, no_ends, note_end};
pub use joined::Joined;
pub use kept::{Kept, cut, grow, is_load, nothing, places_in, put, slot_of};
pub use lane_bound::LaneBound;
pub use past::Past;
pub use rows::{Key, Rows, item_key, parent_of, row_of};
pub use step::Step;
pub use tasks::{Tasks, step_before};
pub use waiter::Waiter;
