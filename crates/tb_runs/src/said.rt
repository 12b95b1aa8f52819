//! What a line of a run text says.

use tb_model::Event;

/// What a line with words says.
#[derive(Debug, Drop)]
pub enum Said {
    /// There are so many cells.
    Cells { count: u32 },
    /// The cell has this number first.
    Cell { cell: u32, value: i64 },
    /// The events come next; their count, which is there, isn't stored.
    Hist,
    /// A task executes its next step, or that with this number.
    Event { step: Option<u64>, event: Event },
}

/// Which lines came before, as far as it says what a line may be.
#[derive(Clone, Copy, Debug, Drop, PartialEq, Eq)]
pub enum Stage {
    /// None with words.
    Begin,
    /// The count of cells, and first values of cells.
    Cells { count: u32 },
    /// These, and `hist` or an event.
    Events { count: u32 },
}
