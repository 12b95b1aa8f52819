//! A numbered breakpoint.

use crate::breaks::Break;

/// A breakpoint, and the number by which it is cleared.
#[derive(Clone, Debug, Drop)]
pub struct Breakpoint {
    pub number: u32,
    pub at: Break,
}
