//! A program's run with its journal: each step and each undo is an entry.
#![tactic(auto)]

mod answer;
mod commit_refusal;
mod committing;
mod live;
mod moves;
mod prepared;
mod rolling;
mod stepping;
mod undoing;

pub use answer::Answer;
pub use commit_refusal::CommitRefusal;
pub use live::{Live, end};
pub use moves::Move;
pub use tb_control::{
    Break, BreakRefusal, Breakpoint, Breakpoints, ClaimRefusal, Claims, Control, Mode, PausedBy,
};
pub use tb_core::{Removed, StepRefusal, UndoRefusal};
pub use tb_next::{Claim, Offer, Situated, Work};
pub use tb_roll::RollRefusal;
