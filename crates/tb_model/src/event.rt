//! A step of a task.

ghost use Rattle.std.specs.Prelude.{◌≡◌};
ghost use Rattle.tb_model.specs.Facts;

use crate::action::Action;
use crate::name::TaskName;

/// A task, and what one step of it did.
#[derive(Clone, Debug, Drop)]
pub struct Event {
    pub task: TaskName,
    pub action: Action,
}

impl Event {
    /// Whether the task executed this step.
    pub fn is_of(&self, t: &TaskName) -> bool
        ensures { result ≡ Facts.is_of t.now self.now }
    {
        self.task == *t
    }

    /// Whether the task began with this.
    pub fn starts(&self, t: &TaskName) -> bool
        ensures { result ≡ Facts.starts t.now self.now }
    {
        self.is_of(t) && self.action.is_start()
    }

    /// Whether the task ended or faulted with this.
    pub fn ends(&self, t: &TaskName) -> bool
        ensures { result ≡ Facts.ends t.now self.now }
    {
        self.is_of(t) && self.action.is_end()
    }

    /// Whether this generated the task.
    pub fn spawns(&self, t: &TaskName) -> bool
        ensures { result ≡ Facts.spawns t.now self.now }
    {
        self.action.is_spawn_of(t)
    }
}
