//! Which steps need a step nearest: a few, each the next of its kind, of which all others that need it are reached.
#![tactic(auto)]

pub mod laws;
