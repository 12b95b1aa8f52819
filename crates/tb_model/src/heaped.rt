//! Where the elements of a list on the heap are.

/// One element is in a block of its own, which is as large as it: most lists have no more.
#[derive(Drop, Debug)]
pub(crate) enum Heaped<T> {
    Zero,
    One(Box<T>),
    Many(Box<Vec<T>>),
}
