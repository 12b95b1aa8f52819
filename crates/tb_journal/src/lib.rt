//! The journal of a run, in few bytes an entry.
#![tactic(auto)]

mod compact;
mod copying;
mod journal;
mod seat;
mod shortening;
mod turn;

pub use copying::copy_of;
pub use journal::Journal;
pub use seat::seat_of;
pub use shortening::stands_apart;
