//! Tests of what is known of tasks by their ids, by the calls of `tb_clocks`.
//! They are in a crate of their own, so that its proofs are not checked once more with them.
#![tactic(auto)]

#[cfg(test)]
mod ids;
#[cfg(test)]
mod tasks;
