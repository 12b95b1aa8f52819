//! Why a `go` stopped.

/// Why no worker executes a further step.
#[derive(Clone, Copy, Debug, Drop, PartialEq, Eq)]
pub enum Why {
    /// A step met a breakpoint.
    Break,
    /// As many steps were executed as were asked for.
    Limit,
    /// No task can step: all have ended.
    Done,
    /// The journal is full.
    Full,
    /// A pause was asked for, or what stopped the workers holds no longer.
    Asked,
}
