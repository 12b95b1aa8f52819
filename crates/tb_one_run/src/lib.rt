//! One finished run is enough: laws of races, over the definitions of `tb_model` and `tb_races`.
#![tactic(auto)]

pub mod behaviours;
pub mod laws;
