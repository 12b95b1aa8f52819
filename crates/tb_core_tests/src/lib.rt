//! Tests of the history, of needs and of rollbacks, by the calls that their crates export.
//! They are a crate of their own, so that no crate's proofs are checked once more with its tests.
#![tactic(auto)]

#[cfg(test)]
mod causes;
#[cfg(test)]
mod needing;
#[cfg(test)]
mod opening;
#[cfg(test)]
mod places;
#[cfg(test)]
mod roll;
#[cfg(test)]
mod taking;
