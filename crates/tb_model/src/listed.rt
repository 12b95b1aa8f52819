//! Where the elements of a list are.

use std::sync::Arc;

/// One element is in the value itself. More are on the heap: with the list that they were added to,
/// and once for all copies of it.
#[derive(Drop)]
pub(crate) enum Listed<T> {
    Zero,
    One(T),
    Many(Box<Vec<T>>),
    Shared(Arc<Vec<T>>),
}
