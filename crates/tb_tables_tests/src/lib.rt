//! Tests of the tables, by the calls that their crates export.
//! They are a crate of their own, so that no crate's proofs are checked once more with its tests. A
//! test forgets what it owns at its end, or owns little: to prove that a table is taken apart costs
//! minutes for each owner of one.
#![tactic(auto)]

#[cfg(test)]
mod depend;
#[cfg(test)]
mod excl;
#[cfg(test)]
mod ready;
#[cfg(test)]
mod store;
#[cfg(test)]
mod undo;
#[cfg(test)]
mod wait;
#[cfg(test)]
mod wait_places;
