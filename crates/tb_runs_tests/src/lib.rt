//! Tests of the reader of run texts, by the calls of `tb_runs`.
//! They are a crate of their own, so that its proofs aren't checked once more with them.
#![tactic(auto)]

#[cfg(test)]
mod events;
#[cfg(test)]
mod faults;
