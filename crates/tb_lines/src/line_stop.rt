//! Where a bounded read of a line stops.

/// What a read of a line stopped at that takes no more of it than was asked for.
#[derive(Clone, Copy, Debug, PartialEq, Eq)]
pub enum LineStop {
    /// A line feed.
    Feed,
    /// The end of what comes. The line is empty where nothing is after the last line feed.
    Input,
    /// More bytes than were asked for, without a line feed.
    Long,
}
