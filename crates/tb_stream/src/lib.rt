//! Which steps of a run race, event by event.
#![tactic(auto)]

mod access;
mod asked;
mod clocks;
mod copying;
mod end;
mod half;
mod halves;
mod joined;
mod joining;
mod kept;
mod mark;
mod merging;
mod noting;
mod order;
mod placing;
mod races;
mod racing;
mod reaching;
mod touched;
mod waiter;
mod waiting;

pub use races::Races;
