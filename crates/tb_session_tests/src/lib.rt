//! Tests of a session over readers and writers that fail, and of several workers, by the calls of
//! `tb_session`.
//! They are a crate of their own, so that its proofs aren't checked once more with them.
#![tactic(auto)]

#[cfg(test)]
mod endings;
#[cfg(test)]
mod fakes;
#[cfg(test)]
mod workers;
