//! Why a change of a seat isn't made.

/// What the run refuses, or that the slot of the entry is taken.
#[derive(Debug, Drop)]
pub enum Refused<E> {
    /// What the run refuses.
    Run { refusal: E },
    /// 11: The cell of the entry's slot is written already, or the slot isn't above the last one of
    /// the seat.
    CellTaken,
}
