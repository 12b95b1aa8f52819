//! Where a worker is between its claim and its commit.

/// Called by each worker after a claim and before its commit, while nobody holds the lock for it.
pub trait Gate {
    /// The seat, and how many calls it has made in this `go`, from 1; the count stays at its greatest
    /// number.
    fn between(&self, seat: u32, nth: u64);
}
