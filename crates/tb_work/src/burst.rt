//! What came of plans that were committed one after another.

use crate::refused::Refused;
use tb_live::CommitRefusal;

/// How many of the plans were committed, and why the next one wasn't.
#[derive(Debug, Drop)]
pub struct Burst {
    pub taken: u32,
    pub refusal: Option<Refused<CommitRefusal>>,
}
