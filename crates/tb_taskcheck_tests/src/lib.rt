//! Tests of the judgement of run texts over readers and writers that fail, by the calls of
//! `tb_taskcheck`.
//! They are in a crate of their own, so that its proofs are not checked once more with them.
#![tactic(auto)]

#[cfg(test)]
mod endings;
#[cfg(test)]
mod fakes;
#[cfg(test)]
mod races;
