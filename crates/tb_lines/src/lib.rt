//! Lines from a reader, and whole texts to a writer.
#![tactic(auto)]

mod counting;
mod line_reader;
mod line_stop;
mod ports;
mod writing;

pub use counting::{CountedReader, CountedWriter};
pub use line_reader::{LineEnd, LineFault, LineReader};
pub use line_stop::LineStop;
pub use ports::{Failed, Sink, Source};
pub use writing::write_whole;
