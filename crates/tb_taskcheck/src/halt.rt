//! Why no report is written.

ghost use Rattle.std.specs.Prelude.{◌≡◌};

use tb_runs::Fault;
use thiserror::Error;

/// Why no report is written, or not all of it.
#[derive(Clone, Copy, Debug, PartialEq, Eq, Drop, Error)]
pub enum Halt {
    /// The line with this number is faulty.
    #[error("line {line}: {fault}")]
    Faulty { line: u64, fault: Fault },
    #[error("read")]
    Read,
    #[error("write")]
    Write,
    #[error("memory")]
    Memory,
}

impl Halt {
    /// The exit status of the program.
    pub fn status(&self) -> u8
        ensures { result ≡ 3 }
    {
        3
    }
}
