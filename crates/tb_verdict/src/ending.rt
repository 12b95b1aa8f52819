//! Why the judgement of a text ends before the text.

use crate::refusal::Refusal;
use tb_runs::Fault;

/// Why the judgement of a run text ends at a line.
#[derive(Debug, Drop)]
pub enum Ending {
    /// The line is faulty.
    Faulty { fault: Fault },
    /// The line's event may not follow.
    Refused { refusal: Refusal },
}
