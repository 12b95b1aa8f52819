//! The text of a step.

ghost use Rattle.std.specs.Prelude.{◌≡◌, ◌++◌, OnOk};
ghost use Rattle.tb_view.specs.Step.{step_text};

use crate::action_text::append_action;
use std::alloc::AllocError;
use tb_draft::Draft;
use tb_model::{Action, TaskName};

/// Appends the text of the kth step of a task, without a line feed. `body` is the name of the body
/// that a spawn names; it is read for a spawn alone. Where memory runs out a part of the text may
/// stay.
pub fn write_step(
    text: &mut Draft,
    body: &str,
    task: &TaskName,
    k: u32,
    action: &Action,
) -> Result<(), AllocError>
    ensures { OnOk result (text.new ≡ text.old ++ step_text body.now task.now k action.now) }
{
    text.push_step(task, k)?;
    text.push(' ')?;
    append_action(text, body, action)
}
