//! The options of the programs.
#![tactic(auto)]

mod command_line;
mod limits;
mod run_text;

pub use command_line::{is_memory, settings};
pub use limits::{DEFAULT_LIMIT, DEFAULT_WORKERS, MOST_ENTRIES, MOST_WORKERS, Settings};
pub use run_text::file_named;
