//! The causal consistency of steps and undos: laws of the definitions of `tb_model` alone.
#![tactic(auto)]

pub mod laws;
