//! Whether all that a step directly needs is needed by way of steps that were found.

ghost use Rattle.std.specs.Prelude.{◌≡◌, ◌<◌, length, take, get_or};
ghost use Rattle.std.specs.Option.{option_copied};
ghost use Rattle.tb_model.specs.Facts.{own};
ghost use Rattle.tb_steps.specs.Entries.{Entry as AnEntry};
ghost use Rattle.tb_steps.specs.Scans.{history_of};
ghost use Rattle.tb_cause.specs.Keys.{has, held_by};
ghost use Rattle.tb_cause.specs.Nearest.{action_answered, answered, held_answered};

use crate::indexed::Indexed;
use crate::keys::Keys;
use tb_model::{Action, TaskName};

/// Whether each stored step that gives a key which the step at this index asks for gives one of
/// these keys. Of a start and of a group's end it isn't said.
pub(crate) fn is_answered_at(keys: &Keys, indexed: &Indexed<'_>, at: usize) -> bool
    requires within { at < length indexed.now }
    ensures { (v : AnEntry) → v ≡ get_or indexed.now at v → result ≡
        answered (has keys.now) (held_by (own v.event.task (history_of (take at indexed.now)))) v.event }
{
    is_answered(
        keys,
        indexed.held_at(at),
        indexed.task_at(at),
        indexed.action_at(at),
    )
}

/// Whether each stored step that gives a key which the task's action asks for gives one of these
/// keys. `held` is the undeferred child for which the task waits, whose end is taken too.
fn is_answered(keys: &Keys, held: Option<&TaskName>, task: &TaskName, action: &Action) -> bool
    ensures { result ≡ answered (has keys.now) (option_copied held.entry)
        (record { task = task.now; action = action.now }) }
{
    is_held_answered(keys, held)
        && keys.tasks.contains(task)
        && is_action_answered(keys, task, action)
}

/// Whether each stored step that gives what is taken of the child's end gives one of these keys:
/// the end is a step of the child. True where no child is named.
fn is_held_answered(keys: &Keys, held: Option<&TaskName>) -> bool
    ensures { result ≡ held_answered (has keys.now) (option_copied held.entry) }
{
    match held {
        Some(child) => keys.tasks.contains(child),
        None => true,
    }
}

/// Whether each stored step that gives a key which the action asks for by itself, or as a wait for
/// all children, gives one of these keys. Of a start and a group's end it isn't said.
fn is_action_answered(keys: &Keys, task: &TaskName, action: &Action) -> bool
    ensures { result ≡ action_answered (has keys.now) task.now action.now }
{
    match action {
        Action::Start | Action::Close => false,
        Action::Load { cell, .. } => keys.stored.contains(cell) || keys.touched.contains(cell),
        Action::Store { cell, .. } => keys.touched.contains(cell),
        Action::Print { .. } => keys.printed,
        Action::Wait { items } => match items.as_slice() {
            [] => keys.parents.contains(task),
            _ => false,
        },
        _ => true,
    }
}
