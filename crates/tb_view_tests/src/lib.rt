//! Tests of the texts of steps and views, by the calls of `tb_view`.
//! They are a crate of their own, so that its proofs aren't checked once more with them. A test
//! forgets its run at its end: to prove that a run is taken apart costs minutes for each owner of
//! one.
#![tactic(auto)]

#[cfg(test)]
mod deep_names;
#[cfg(test)]
mod drafts;
#[cfg(test)]
mod order_of_tasks;
#[cfg(test)]
mod short_texts;
#[cfg(test)]
mod steps;
#[cfg(test)]
mod tasks;
#[cfg(test)]
mod views;
