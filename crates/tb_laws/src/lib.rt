//! Laws of the definitions of `tb_model`. Each is a sentence over the definitions alone, and a
//! function's contract, since what no contract says stays unproved.
#![tactic(auto)]

pub mod equivalence;
pub mod histories;
pub mod loop_lemma;
pub mod next_steps;
pub mod progress;
pub mod rollback;
pub mod states;
