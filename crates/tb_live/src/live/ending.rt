//! The end of a run.

use super::Live;
use tb_next::{end_core, end_program};

/// Ends a run, and gives back its memory. Whoever owns a run passes it on or hands it to this call: a function that
/// drops a run has to show it for each of its tables.
pub fn end(live: Live) {
    let Live { program, core, .. } = live;
    end_core(core);
    end_program(program);
}
