//! Recorded runs: reads a run text, line by line.
#![tactic(auto)]

mod action;
mod fault;
mod items;
pub mod laws;
mod line;
mod name;
mod plain;
mod said;
mod taking;
mod text;
mod verb;
mod words;

pub use fault::{Fault, Unread};
pub use line::{read_event, read_line};
pub use said::{Said, Stage};
