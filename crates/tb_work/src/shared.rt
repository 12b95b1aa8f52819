//! What the threads of a team share.

ghost use Rattle.std.specs.Prelude.{◌≡◌, ◌≤◌, length};

use crate::desk::Desk;
use crate::places::Places;
use crate::team::Team;
use std::alloc::Global;
use std::sync::Mutex;

/// The slots of a journal, and the run under its lock.
#[derive(Drop)]
pub struct Shared<N: Team> {
    pub(crate) alloc: Global,
    pub(crate) places: Places,
    pub(crate) desk: Mutex<Desk<N>>,
    pub(crate) ghost named: { places ≡ N.slots },
    pub(crate) ghost enough: { N.limit ≤ length N.slots.cells },
}
