//! Tests of which steps of a run race, by the calls of `tb_stream`.
//! They are in a crate of their own, so that its proofs are not checked once more with them.
#![tactic(auto)]

#[cfg(test)]
mod races;
