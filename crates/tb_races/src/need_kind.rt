//! Why a step directly needs an earlier one.

use crate::conflict::Conflict;

/// Why a step directly needs an earlier one. Where several kinds hold, the first counts.
#[derive(Clone, Copy, Debug, Drop, PartialEq, Eq)]
pub enum NeedKind {
    /// The two steps are of one task.
    Task,
    /// The earlier one generates the task of the later.
    Spawn,
    /// The two touch one cell, or both print.
    Conflict(Conflict),
    /// The task that starts depends on the one that ended (OpenMP 5.2, section 15.9.5).
    Before,
    /// The task that starts excludes the one that ended: `mutexinoutset` (section 15.9.5).
    Apart,
    /// A `taskwait` waits for the end of a child (section 15.5).
    Wait,
    /// The end of a `taskgroup` waits for the end of a member (section 15.4).
    Group,
    /// The parent goes on after the end of its undeferred child (section 12.5).
    Undeferred,
}
