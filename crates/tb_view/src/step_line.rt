//! The line of a step.

ghost use Rattle.std.specs.Prelude.{◌≡◌, ◌++◌, OnOk};
ghost use Rattle.tb_view.specs.Step.{spawned_name};
ghost use Rattle.tb_view.specs.Lines.{event_line};
ghost use Rattle.tb_view.specs.Tasks.{body_text};

use crate::short_line::put_line;
use crate::step_text::write_step;
use std::alloc::AllocError;
use tb_draft::{Draft, ShortText};
use tb_model::{Action, TaskName};
use tb_read::Program;

/// The name of the body that the line begins, and nothing for other lines.
pub(crate) fn body_name(program: &Program, begins: u32) -> &str
    ensures { result.now ≡ body_text program.now begins }
{
    match program.body_name(begins) {
        Some(name) => name,
        None => "",
    }
}

/// The name of the body that an action spawns, and nothing for other actions.
fn spawned_name<'a>(program: &'a Program, action: &Action) -> &'a str
    ensures { result.now ≡ spawned_name program.now action.now }
{
    match action {
        Action::Spawn(spawned) => body_name(program, spawned.get().body),
        _ => "",
    }
}

/// Appends the line of the kth step of a task. Where memory runs out a part of it may stay.
#[inline(always)]
pub fn append_line(
    text: &mut Draft,
    program: &Program,
    task: &TaskName,
    k: u32,
    action: &Action,
) -> Result<(), AllocError>
    ensures { OnOk result (text.new ≡ text.old
        ++ event_line program.now (record { task = task.now; k = k })
        (record { task = task.now; action = action.now })) }
{
    // nearly every line is short, and costs less than half as much put together from its end
    let mut line = ShortText::new();
    match put_line(&mut line, program, task, k, action) {
        Some(()) => text.push_str(line.as_str()),
        None => append_long(text, program, task, k, action),
    }
}

/// Appends the line of the kth step of a task, however long it is. Where memory runs out a part of
/// it may stay.
// out of line: a short line doesn't pay for its stack frame
#[inline(never)]
fn append_long(
    text: &mut Draft,
    program: &Program,
    task: &TaskName,
    k: u32,
    action: &Action,
) -> Result<(), AllocError>
    ensures { OnOk result (text.new ≡ text.old
        ++ event_line program.now (record { task = task.now; k = k })
        (record { task = task.now; action = action.now })) }
{
    let body = spawned_name(program, action);
    write_step(text, body, task, k, action)?;
    text.push('\n')
}
