//! The end of what a run is made of. What drops one of these has to show it for each of its tables:
//! so it is shown here once, next to the crates that a run waits for, and not in `tb_live`.

use tb_core::Core;
use tb_read::Program;

/// Gives back the memory of a core.
pub fn end_core(_core: Core) {}

/// Gives back the memory of a program.
pub fn end_program(_program: Program) {}
