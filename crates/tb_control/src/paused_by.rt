//! What paused a run.

/// Why no further step is executed.
#[derive(Clone, Copy, Debug, Drop, PartialEq, Eq)]
pub enum PausedBy {
    /// A step met the breakpoint with this number.
    Break { number: u32 },
    /// The steps that were asked for have been taken.
    Count,
    /// A pause was asked for.
    Pause,
}
