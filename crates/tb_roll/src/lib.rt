//! A step is taken back with all that need it, and runs are compared.
#![tactic(auto)]

mod comparing;
mod matching;
mod readied;
mod roll_refusal;
mod rolling;
mod same_action;

pub use comparing::same_run;
pub use readied::Ready;
pub use roll_refusal::RollRefusal;
pub use rolling::{finish, ready, roll};
