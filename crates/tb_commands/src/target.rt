//! The step that a rollback begins with.

use tb_model::StepId;

/// Which step is taken back, with all that need it.
#[derive(Debug, Drop)]
pub enum Target {
    /// The step that is named.
    Step { id: StepId },
    /// The last store to the cell.
    LastStore { cell: u32 },
    LastPrint,
}
