//! The tasks of a run, as text.

ghost use Rattle.std.specs.Prelude.{◌≡◌, ◌++◌, IfOk, IfSome, OnOk, codes};
ghost use Rattle.tb_model.specs.Spelling.{name_text};
ghost use Rattle.tb_steps.specs.Scans.{history_of};
ghost use Rattle.tb_core.specs.Seen.{history};
ghost use Rattle.tb_live.specs.Soundness.{Fits};
ghost use Rattle.tb_view.specs.Lines.{line};
ghost use Rattle.tb_view.specs.Listing.{joined};
ghost use Rattle.tb_view.specs.Tasks.{with_spawned, named_tasks, number_if_any, task_line, tasks_text};

use crate::named_tasks::NamedTasks;
use crate::states::{append_state, state};
use crate::step_line::body_name;
use std::alloc::{AllocError, Global};
use tb_core::{Core, History};
use tb_draft::{Draft, ShortText};
use tb_model::{Action, TaskName};
use tb_read::Program;

/// Adds the task that the action spawns, where it spawns one.
fn insert_spawned(tasks: &mut NamedTasks, action: &Action) -> Result<(), AllocError>
    ensures { OnOk result (tasks.new ≡ with_spawned action.now tasks.old) }
{
    match action {
        Action::Spawn(spawned) => {
            let spawn = spawned.get();
            tasks.insert(spawn.child.clone()?, spawn.body)
        }
        _ => Ok(()),
    }
}

/// The root and all tasks that were spawned, in the order of names, each with the line that begins
/// its body.
fn named_tasks(
    alloc: Global,
    root_line: u32,
    entries: &History<'_>,
) -> Result<Vec<(TaskName, u32)>, AllocError>
    ensures { IfOk result (λ tasks. tasks.items ≡ named_tasks root_line (history_of entries.now)) }
{
    let mut tasks = NamedTasks::new(alloc);
    tasks.insert(TaskName::root(alloc), root_line)?;
    'entries: for at in 0..entries.len() {
        insert_spawned(&mut tasks, entries.action(at))?;
    }
    tasks.into_vec()
}

/// Puts the line of a task in front, if there is capacity.
fn put_task(
    text: &mut ShortText,
    task: &TaskName,
    body: &str,
    word: &str,
    number: Option<u32>,
) -> Option<()>
    ensures { IfSome result (λ _. text.new
        ≡ line (name_text task.now ++ codes " " ++ body.now ++ codes " " ++ word.now ++ number_if_any number) ++ text.old) }
{
    text.prepend("\n")?;
    if let Some(n) = number {
        text.prepend_number(n)?;
    }
    text.prepend(word)?;
    text.prepend(" ")?;
    text.prepend(body)?;
    text.prepend(" ")?;
    text.prepend_name(task)
}

/// Appends the same line, however long it is.
#[inline(never)]
fn append_long(
    text: &mut Draft,
    task: &TaskName,
    body: &str,
    word: &str,
    number: Option<u32>,
) -> Result<(), AllocError>
    ensures { OnOk result (text.new ≡ text.old
        ++ line (name_text task.now ++ codes " " ++ body.now ++ codes " " ++ word.now ++ number_if_any number)) }
{
    text.push_name(task)?;
    text.push(' ')?;
    text.push_str(body)?;
    text.push(' ')?;
    append_state(text, word, number)?;
    text.push('\n')
}

/// Appends the line of a task. In a walk over tasks it hands on where the last one was found.
fn append_task(
    text: &mut Draft,
    program: &Program,
    core: &Core,
    near: &mut Option<usize>,
    task: &TaskName,
    body: u32,
) -> Result<(), AllocError>
    requires { Fits program.now core.now.run }
    ensures { OnOk result (text.new ≡ text.old
        ++ joined (task_line program.now (history core.now.run) (task.now, body))) }
{
    let body = body_name(program, body);
    let (word, at) = state(program, core, near, task);
    let mut line = ShortText::new();
    match put_task(&mut line, task, body, word, at) {
        Some(()) => text.push_str(line.as_str()),
        None => append_long(text, task, body, word, at),
    }
}

/// How many tasks there are, and the line of each.
pub(crate) fn tasks_text(alloc: Global, program: &Program, core: &Core) -> Result<Draft, AllocError>
    requires { Fits program.now core.now.run }
    ensures { IfOk result (λ text. text ≡ tasks_text program.now (history core.now.run)) }
{
    let entries = core.legal_entries();
    let tasks = named_tasks(alloc, program.root_line(), &entries)?;
    let count = tasks.len();
    let head = format!(in alloc; "tasks {count}\n")?;
    let mut text = Draft::of(alloc, head);
    let mut near = None;
    'tasks: for (task, body) in &tasks {
        append_task(&mut text, program, core, &mut near, task, *body)?;
    }
    Ok(text)
}
