//! A `go` of several workers: a run is lent to a team of threads, and what they did is looked through.
#![tactic(auto)]

mod gone;
mod lending;
mod looking;
mod losing;
mod lost;
mod open_gate;
mod several;
mod stop;
mod stopping;

pub use gone::Gone;
pub use lost::Lost;
pub use several::go_several;
pub use stop::Stop;
