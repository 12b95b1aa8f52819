//! Where the groups of a task are.

use crate::stacks::Stacks;

/// One group is in the value itself, and more on the heap: most tasks begin one at most.
#[derive(Drop)]
pub(crate) enum Stored {
    Nothing,
    Open(u32),
    Shut(u32),
    Many(Box<Stacks>),
}
