//! Tests of the reader and of the evaluation of statements, by the calls of `tb_read`.
//! They are a crate of their own, so that its proofs aren't checked once more with them.
#![tactic(auto)]

#[cfg(test)]
mod flow;
#[cfg(test)]
mod limits;
#[cfg(test)]
mod memory;
#[cfg(test)]
mod plans;
#[cfg(test)]
mod programs;
#[cfg(test)]
mod words;
