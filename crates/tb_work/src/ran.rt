//! What a `go` did.

use crate::why::Why;

/// How many steps the workers took, and why no more.
#[derive(Clone, Copy, Debug, Drop)]
pub struct Ran {
    pub steps: u64,
    pub why: Why,
}
