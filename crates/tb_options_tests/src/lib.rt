//! Tests of the options as they are typed, by the calls of `tb_options`.
//! They are a crate of their own, so that its proofs aren't checked once more with them.
#![tactic(auto)]

#[cfg(test)]
mod run_words;
#[cfg(test)]
mod words;
