//! Tests of a run that threads share, by the calls of `tb_work`.
//! They are a crate of their own, so that its proofs aren't checked once more with them. One
//! function owns the team of each test: to prove that a team is taken apart is dear.
#![tactic(auto)]

#[cfg(test)]
mod asking;
#[cfg(test)]
mod beside;
#[cfg(test)]
mod bursts;
#[cfg(test)]
mod gates;
#[cfg(test)]
mod goes;
#[cfg(test)]
mod meeting;
#[cfg(test)]
mod memory;
#[cfg(test)]
mod scenario;
#[cfg(test)]
mod team;
#[cfg(test)]
mod withdrawn;
