//! The answer to a move.

use crate::commit_refusal::CommitRefusal;
use tb_core::{Removed, UndoRefusal};
use tb_roll::RollRefusal;

/// What a move of a run is answered. A step is answered by the slot of its entry in the journal.
#[derive(Debug, Drop)]
pub enum Answer {
    Step(Result<u32, CommitRefusal>),
    Undo(Result<Removed, UndoRefusal>),
    Roll(Result<Vec<Removed>, RollRefusal>),
}
