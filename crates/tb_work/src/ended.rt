//! How a worker ended.

/// What ended a worker of a seat's last `go`, where it is a refusal that the `go` answers.
#[derive(Clone, Copy, Drop, PartialEq, Eq)]
pub enum Ended {
    /// The worker ended well, by no refusal.
    Well,
    /// A slot's cell was taken.
    CellTaken,
    /// A growth was refused.
    Memory,
}
