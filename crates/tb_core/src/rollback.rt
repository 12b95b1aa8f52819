//! What is wanted to take a step back with all that need it.

ghost use Rattle.std.specs.Prelude.{◌≡◌, ◌≤◌, ◌+◌, [], All, vec_len, vec_capacity};

use crate::entry::Entry;
use crate::removed::Removed;
use tb_model::StepId;

/// A step, all that go with it, and the capacity for the answer. That the capacity is there always
/// holds.
#[derive(Drop)]
pub struct Rollback {
    /// The step that was chosen.
    pub step: StepId,
    /// The indexes of the steps that go, rising.
    pub places: Vec<u32>,
    /// The names of the steps at these indexes, in this order.
    pub steps: Vec<StepId>,
    /// How many events their history has.
    pub count: u32,
    /// Empty, with capacity for the answer.
    pub removed: Vec<Removed>,
    pub ghost none_removed: { removed.items ≡ [] },
    pub ghost removed_room: { vec_len places ≤ vec_capacity removed },
}
