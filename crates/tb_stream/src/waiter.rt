//! A step that may wait.

use crate::mark::Mark;
use tb_clocks::Tasks;
use tb_model::Action;

/// A step that may wait: its action, for whose children it may wait, and from where on.
#[derive(Clone, Copy)]
pub struct Waiter<'a> {
    /// What the run in front of it says of its tasks.
    pub tasks: &'a Tasks,
    pub action: &'a Action,
    pub step: Mark,
    /// The id of the task for whose children it may wait.
    pub parent: usize,
    /// An index in front of which there is no end for which it waits.
    pub from: usize,
}
