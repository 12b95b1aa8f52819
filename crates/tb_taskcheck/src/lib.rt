//! Reads a recorded run from any source, judges it, and writes the report.
#![tactic(auto)]

mod found;
mod halt;
mod judging;
pub mod laws;
mod outcome;
mod reading;
mod refused;
mod report;
mod unended;

pub use halt::Halt;
pub use judging::judge;
pub use outcome::Outcome;
pub use tb_lines::{CountedReader, CountedWriter, Failed, Sink, Source};
