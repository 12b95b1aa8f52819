//! What a task is generated with.

ghost use Rattle.std.specs.Prelude.{◌≡◌, ◌↔◌, IsTrue};

use crate::args::Args;
use crate::items::Items;
use crate::name::TaskName;

/// A child of a task, and what it is generated with.
#[derive(Clone, Debug, Drop)]
pub struct Spawn {
    pub child: TaskName,
    /// The line at which the child's body begins, from 1.
    pub body: u32,
    pub args: Args,
    pub items: Items,
    /// An undeferred child has to end before its parent goes on (OpenMP 5.2, 12.5).
    pub deferred: bool,
}

impl Spawn {
    /// Whether both are the same but for the name of the child.
    pub fn is_like(&self, other: &Spawn) -> bool
        ensures { IsTrue result ↔ (self.now ≡ record other.now { child = self.now.child }) }
    {
        self.body == other.body
            && self.deferred == other.deferred
            && self.args.is_same(&other.args)
            && self.items.is_same(&other.items)
    }

    /// Whether both are the same.
    pub fn is_same(&self, other: &Spawn) -> bool
        ensures { IsTrue result ↔ (self.now ≡ other.now) }
    {
        self.child == other.child && self.is_like(other)
    }
}
