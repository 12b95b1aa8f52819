//! The names in a refusal.

ghost use Rattle.std.specs.Prelude.{◌≡◌, ◌<◌, IfOk, OnErr};
ghost use Rattle.tb_undo.specs.Obstacles.{hindrance_by, sibling};
ghost use Rattle.tb_verdict.specs.Memory.{IsLong, IsLongName};
ghost use Rattle.tb_verdict.specs.Numbered.{IsNumbered};
ghost use Rattle.tb_verdict.specs.Refusals.{kept_by};

use crate::refusal::Refusal;
use std::alloc::AllocError;
use tb_model::TaskName;
use tb_undo::Obstacle;

/// What blocks the task's action, by name. Memory is wanted at most for a name of more than three
/// ordinals.
pub fn named(task: &TaskName, obstacle: Obstacle<'_>) -> Result<Refusal, AllocError>
    requires { IsNumbered obstacle }
    ensures ok { IfOk result (λ r. r ≡ kept_by (hindrance_by task.now obstacle.entry)) }
    ensures memory { OnErr result (IsLong (kept_by (hindrance_by task.now obstacle.entry))) }
{
    match obstacle {
        Obstacle::Undeferred { child } => Ok(Refusal::Undeferred {
            child: task.child(child)?,
        }),
        Obstacle::Waiting { sibling } => Ok(Refusal::Waiting {
            pred: sibling_of(task, sibling)?,
        }),
        Obstacle::Excluded { sibling } => Ok(Refusal::Excluded {
            by: sibling_of(task, sibling)?,
        }),
        Obstacle::Children { child } => Ok(Refusal::Children {
            first: task.child(child)?,
        }),
        Obstacle::Group { member } => Ok(Refusal::Group {
            first: member.clone()?,
        }),
    }
}

/// The child of the task's parent with this ordinal.
fn sibling_of(task: &TaskName, number: u32) -> Result<TaskName, AllocError>
    requires { 0 < number }
    ensures ok { IfOk result (λ name. name ≡ sibling task.now number) }
    ensures memory { OnErr result (IsLongName (sibling task.now number)) }
{
    match task.parent()? {
        Some(parent) => parent.child(number),
        None => task.child(number),
    }
}
