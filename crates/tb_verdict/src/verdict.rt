//! What a run text comes to.

use crate::judge::Judge;
use crate::refusal::Refusal;
use tb_runs::Fault;

/// What a run text comes to.
#[derive(Drop)]
pub enum Verdict {
    /// Each of its events, of which there are so many, may follow those in front of it. The judge
    /// has taken them all.
    Legal { events: u32, judge: Judge },
    /// The event of the line with this number may not follow.
    Refused { line: u64, refusal: Refusal },
    /// The line with this number is faulty, or it ends a text without words.
    Faulty { line: u64, fault: Fault },
}
