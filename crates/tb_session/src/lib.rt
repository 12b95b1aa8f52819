//! A session of commands on a task program, over any reader and writer.
#![tactic(auto)]

mod divider;
mod halt;
pub mod laws;
mod opening;
mod serving;
mod session;

pub use halt::Halt;
pub use session::run;
pub use tb_lines::{CountedReader, CountedWriter, Failed, Sink, Source};
pub use tb_options::Settings;
