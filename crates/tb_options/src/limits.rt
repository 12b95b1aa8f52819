//! What the options give.

ghost use Rattle.std.specs.Prelude.{◌≤◌};

/// The most workers that may be asked for.
pub const MOST_WORKERS: u32 = 64;

/// The most entries that the journal may be given capacity for.
pub const MOST_ENTRIES: u32 = 1_000_000;

/// The workers where no option says otherwise.
pub const DEFAULT_WORKERS: u32 = 4;

/// The entries of the journal where no option says otherwise.
pub const DEFAULT_LIMIT: u32 = 100_000;

/// The most workers that `go` may be given, and the most entries of the journal.
#[derive(Clone, Copy, Debug, PartialEq, Eq)]
pub struct Settings {
    pub workers: u32,
    pub limit: u32,
    pub ghost some_workers: { 1 ≤ workers },
    pub ghost few_workers: { workers ≤ 64 },
    pub ghost some_entries: { 1 ≤ limit },
    pub ghost few_entries: { limit ≤ 1000000 },
}
