//! What a line of a session asks for.

use crate::command::Command;
use crate::workers::Workers;

/// Why a line is no command.
#[derive(Clone, Copy, Debug, PartialEq, Eq)]
pub enum CommandFault {
    /// The line is too long, or has a byte that is no text before its comment.
    Line,
    /// There is no such command.
    Word,
    /// The command has another count of words.
    Count,
    /// A word names no task or no step.
    Name,
    /// A word is no number of the range.
    Number,
}

/// What a line asks for.
#[derive(Debug, Drop)]
pub enum Asked {
    /// The line has no words.
    Nothing,
    Command(Command),
    /// Steps by so many workers, no more than so many, up to a breakpoint.
    Go { workers: Workers, most: u32 },
    Fault(CommandFault),
}
