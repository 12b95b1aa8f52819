//! An open taskgroup.

/// An open taskgroup: the index in the history of the step that opened it, and how many children its
/// task had generated before.
#[derive(Clone, Copy, Debug, PartialEq, Eq)]
pub struct Group {
    pub at: usize,
    pub children: u32,
}
