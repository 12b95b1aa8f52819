//! A step with all that need it.

use tb_model::StepId;

/// A step and all that need it, directly or through others, in the order of the history.
#[derive(Drop)]
pub struct Cone {
    /// The indexes of the step and of all that need it among the stored steps.
    pub places: Vec<u32>,
    /// The names of the steps at these indexes, in this order.
    pub steps: Vec<StepId>,
}
