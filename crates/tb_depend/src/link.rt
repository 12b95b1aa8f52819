//! What an item knows of those in front of it.

/// Three items in front of one, each by one above its index in the list of all items, and 0 where
/// there is none.
#[derive(Clone, Copy, Drop)]
pub(crate) struct Link {
    /// The last one of the very same location.
    pub same: usize,
    /// The last one of the same storage location: of the same location, or of all memory.
    pub meeting: usize,
    /// The last one that comes before it.
    pub before: usize,
}
