//! Tests of a run with its journal, by the calls of `tb_live`.
//! They are a crate of their own, so that its proofs aren't checked once more with them. A test
//! forgets its run at its end: to prove that a run is taken apart costs minutes for each owner of
//! one.
#![tactic(auto)]

#[cfg(test)]
mod commits;
#[cfg(test)]
mod groups;
#[cfg(test)]
mod journals;
#[cfg(test)]
mod moves;
#[cfg(test)]
mod seats;
#[cfg(test)]
mod steps;
