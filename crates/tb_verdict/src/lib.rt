//! Judges a recorded run, event by event.
#![tactic(auto)]

mod ending;
mod judge;
pub mod laws;
mod line_verdict;
mod named;
mod refusal;
mod run_state;
mod taking;
mod text_judge;
mod turn;
mod unfit;
mod values;
mod verdict;

pub use ending::Ending;
pub use judge::Judge;
pub use line_verdict::LineVerdict;
pub use refusal::Refusal;
pub use run_state::RunState;
pub use taking::{refusal_for, take};
pub use text_judge::TextJudge;
pub use values::Values;
pub use verdict::Verdict;
