//! The tasks that can step, and what the others wait for, as text.

ghost use Rattle.std.specs.Prelude.{◌≡◌, ◌≤◌, ◌++◌, IfOk, IfSome, OnOk, length};
ghost use Rattle.tb_model.specs.Hindrances.{refusal_of, can_step};
ghost use Rattle.tb_model.specs.Spelling.{name_text};
ghost use Rattle.tb_live.specs.Session.{history};
ghost use Rattle.tb_view.specs.Lines.{line};
ghost use Rattle.tb_view.specs.Listing.{joined};
ghost use Rattle.tb_view.specs.Waits.{ready_by, wait_by, ready_text, waits_text};

use crate::hindrances::append_hindrance;
use crate::listing::headed;
use crate::unended::unended_tasks;
use std::alloc::{AllocError, Global};
use tb_draft::{Draft, ShortText};
use tb_live::Live;
use tb_model::TaskName;

/// Puts the line of the task's name in front, if there is capacity.
fn put_name(text: &mut ShortText, task: &TaskName) -> Option<()>
    ensures { IfSome result (λ _. text.new ≡ line (name_text task.now) ++ text.old) }
{
    text.prepend("\n")?;
    text.prepend_name(task)
}

/// Appends the line of the task's name, however long it is.
#[inline(never)]
fn append_long(text: &mut Draft, task: &TaskName) -> Result<(), AllocError>
    ensures { OnOk result (text.new ≡ text.old ++ line (name_text task.now)) }
{
    text.push_name(task)?;
    text.push('\n')
}

/// Appends the task's name on a line, and returns that it took one.
fn append_name(text: &mut Draft, task: &TaskName) -> Result<usize, AllocError>
    ensures text { OnOk result (text.new ≡ text.old ++ line (name_text task.now)) }
    ensures count { IfOk result (λ n. n ≡ 1) }
{
    let mut line = ShortText::new();
    match put_name(&mut line, task) {
        Some(()) => text.push_str(line.as_str())?,
        None => append_long(text, task)?,
    }
    Ok(1)
}

/// Appends the task's name, where it can step, and returns how many lines that took.
fn append_ready(
    text: &mut Draft,
    live: &Live,
    near: &mut Option<usize>,
    task: &TaskName,
) -> Result<usize, AllocError>
    ensures text { OnOk result (text.new ≡ text.old
        ++ joined (ready_by task.now (can_step live.now.session.program (history live.now.session) task.now))) }
    ensures count { IfOk result (λ n. n
        ≡ length (ready_by task.now (can_step live.now.session.program (history live.now.session) task.now))) }
    ensures few { IfOk result (λ n. n ≤ 1) }
{
    match live.walk_refusal(near, task)? {
        Some(_) => Ok(0),
        None => append_name(text, task),
    }
}

/// Appends what the task waits for, if it waits, and returns how many lines that took.
fn append_wait(
    text: &mut Draft,
    live: &Live,
    near: &mut Option<usize>,
    task: &TaskName,
) -> Result<usize, AllocError>
    ensures text { OnOk result (text.new ≡ text.old
        ++ joined (wait_by task.now (refusal_of live.now.session.program (history live.now.session) task.now))) }
    ensures count { IfOk result (λ n. n
        ≡ length (wait_by task.now (refusal_of live.now.session.program (history live.now.session) task.now))) }
    ensures few { IfOk result (λ n. n ≤ 1) }
{
    match live.walk_refusal(near, task)? {
        Some(refusal) => append_hindrance(text, task, &refusal),
        None => Ok(0),
    }
}

/// The tasks that can step.
pub(crate) fn ready_text(alloc: Global, live: &Live) -> Result<Draft, AllocError>
    ensures { IfOk result (λ text. text
        ≡ ready_text live.now.session.program (history live.now.session)) }
{
    let tasks = unended_tasks(alloc, live.core())?;
    let mut text = Draft::new(alloc);
    let mut count = 0;
    let mut near = None;
    'tasks: for task in &tasks {
        count += append_ready(&mut text, live, &mut near, task)?;
    }
    headed(alloc, "ready", count, text)
}

/// What the tasks wait for that haven't ended and can't step.
pub(crate) fn waits_text(alloc: Global, live: &Live) -> Result<Draft, AllocError>
    ensures { IfOk result (λ text. text
        ≡ waits_text live.now.session.program (history live.now.session)) }
{
    let tasks = unended_tasks(alloc, live.core())?;
    let mut text = Draft::new(alloc);
    let mut count = 0;
    let mut near = None;
    'tasks: for task in &tasks {
        count += append_wait(&mut text, live, &mut near, task)?;
    }
    headed(alloc, "waits", count, text)
}
