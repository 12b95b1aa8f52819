//! The reply to a command on a run, and what the run is after it.
#![tactic(auto)]

mod boxed_run;
mod breaking;
mod going;
mod history;
pub mod laws;
mod newest;
mod refusing;
mod replies;
mod rolling;
mod running;
mod showing;
mod teaming;
mod unanswered;
mod unwritten;

pub use boxed_run::BoxedRun;
pub use replies::answer;
pub use unanswered::Unanswered;
