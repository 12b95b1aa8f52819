//! Reads a program text.
#![tactic(auto)]

mod block;
mod body;
mod build;
mod clauses;
mod context;
mod fault;
mod follow;
mod grammar;
mod head;
mod heading;
pub mod laws;
mod level;
mod line;
mod meaning;
mod misfits;
mod parsed;
mod place;
mod program;
mod reader;
mod reading;
mod stack;
mod strip;
mod text;
mod ways;
pub mod word;

pub use fault::{FaultKind, ReadFault};
pub use program::Program;
pub use reader::read;
pub use strip::strip_around;
pub use text::{before_comment, begins_with, is_text, line_words};
pub use word::same_word;
