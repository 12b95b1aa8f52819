//! The steps at a cell or at the output with which a later step may still race.

use crate::access::Access;

/// The steps at a cell or at the output with which a later step may still race by one order, the
/// oldest first. One that comes before a newer one is left out where that races with as much.
#[derive(Clone, Drop)]
pub struct Touched {
    /// The steps that store or print.
    pub writes: Vec<Access>,
    /// The steps that load.
    pub loads: Vec<Access>,
}
