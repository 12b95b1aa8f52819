//! Tests of the judgement of run texts, by the calls of `tb_verdict`.
//! They are a crate of their own, so that its proofs aren't checked once more with them.
#![tactic(auto)]

#[cfg(test)]
mod texts;
#[cfg(test)]
mod whole;
