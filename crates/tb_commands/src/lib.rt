//! What a line of a session asks for: a command, a run by workers, nothing, or a fault.
#![tactic(auto)]

mod asked;
mod asking;
mod command;
mod number;
mod spelling;
mod stopping;
mod target;
mod verbs;
mod word;
mod workers;

pub use asked::{Asked, CommandFault};
pub use asking::read_line;
pub use command::Command;
pub use target::Target;
pub use word::Word;
pub use workers::Workers;
