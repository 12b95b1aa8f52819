//! How a task uses what an item of its depend clause names.

/// The dependence type of an item (OpenMP 5.2, section 15.9.5).
#[derive(Clone, Copy, Debug, Drop, PartialEq, Eq)]
pub enum Kind {
    In,
    Out,
    Inout,
    Mutexinoutset,
    Inoutset,
}
