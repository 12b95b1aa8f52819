//! A run that threads share: one lock, a write-once cell for each journal slot, and receipts.
#![tactic(auto)]

mod adopt_refusal;
mod adopting;
mod asking;
mod burst;
mod closed;
mod closing;
mod desk;
mod ended;
mod entering;
mod gap;
mod gate;
mod go_refusal;
mod going;
mod kept;
mod places;
mod ran;
mod receipt;
mod refused;
mod running;
mod seat;
mod shared;
mod stopping;
mod taking;
mod team;
mod told;
mod turn;
mod unmade;
mod why;

pub use adopt_refusal::AdoptRefusal;
pub use adopting::is_seated;
pub use burst::Burst;
pub use closed::Closed;
pub use gap::Gap;
pub use gate::Gate;
pub use go_refusal::GoRefusal;
pub use places::Places;
pub use ran::Ran;
pub use receipt::Receipt;
pub use refused::Refused;
pub use running::run_is_sound;
pub use seat::Seat;
pub use shared::Shared;
pub use team::Team;
pub use why::Why;
