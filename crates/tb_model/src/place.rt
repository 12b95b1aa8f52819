//! What an item of a depend clause names.

/// A storage location: one cell, or all memory (`omp_all_memory`, OpenMP 5.2, section 15.9.5).
#[derive(Clone, Copy, Debug, Drop, PartialEq, Eq)]
pub enum Place {
    /// A cell, by its index, from 0.
    Cell(u32),
    All,
}
