//! One task, as text.

ghost use Rattle.std.specs.Prelude.{◌≡◌, ◌++◌, IfOk, OnOk, IsTrue, codes, length};
ghost use Rattle.tb_model.specs.Facts.{own, is_spawned};
ghost use Rattle.tb_model.specs.Program.{called};
ghost use Rattle.tb_model.specs.State.{open_groups};
ghost use Rattle.tb_core.specs.Seen.{history};
ghost use Rattle.tb_core.specs.Situation.{config_of};
ghost use Rattle.tb_live.specs.Soundness.{Fits};
ghost use Rattle.tb_view.specs.Listing.{joined, listed, lines_of};
ghost use Rattle.tb_view.specs.Tasks.{body_text, head_text, numbers_text, item_line, task_text};

use crate::action_text::{append_args, append_place, kind};
use crate::listing::append_count;
use crate::states::{append_state, state};
use crate::step_line::body_name;
use std::alloc::{AllocError, Global};
use tb_core::Core;
use tb_draft::Draft;
use tb_model::{Item, TaskName};
use tb_read::Program;

/// The name of the body of a task that is there.
fn body_of<'a>(program: &'a Program, core: &Core, task: &TaskName) -> &'a str
    requires fits { Fits program.now core.now.run }
    requires there { IsTrue (is_spawned (history core.now.run) task.now) }
    ensures { result.now ≡ body_text program.now (called program.now task.now (history core.now.run)).line }
{
    match core.body(task) {
        Some(line) => body_name(program, line),
        None => unreachable!(),
    }
}

/// Appends the lines of the task's name, of its body and of its state.
fn append_head(
    text: &mut Draft,
    program: &Program,
    core: &Core,
    task: &TaskName,
) -> Result<(), AllocError>
    requires fits { Fits program.now core.now.run }
    requires there { IsTrue (is_spawned (history core.now.run) task.now) }
    ensures { OnOk result (text.new
        ≡ text.old ++ head_text program.now (history core.now.run) task.now) }
{
    text.push_str("task ")?;
    text.push_name(task)?;
    text.push_str("\nbody ")?;
    text.push_str(body_of(program, core, task))?;
    text.push_str("\nstate ")?;
    let mut near = None;
    let (word, at) = state(program, core, &mut near, task);
    append_state(text, word, at)?;
    text.push('\n')
}

/// Appends the lines of so many steps, of these registers and of so many open groups.
fn append_numbers(
    alloc: Global,
    text: &mut Draft,
    steps: u32,
    regs: &[i64],
    groups: usize,
) -> Result<(), AllocError>
    ensures { OnOk result (text.new ≡ text.old ++ numbers_text steps regs.now groups) }
{
    text.push_str("steps ")?;
    text.push_number(steps)?;
    text.push_str("\nregs")?;
    append_args(text, regs)?;
    text.push('\n')?;
    append_count(alloc, text, "groups", groups)
}

/// Appends those of the task.
fn append_own(
    alloc: Global,
    text: &mut Draft,
    core: &Core,
    task: &TaskName,
) -> Result<(), AllocError>
    requires { IsTrue (is_spawned (history core.now.run) task.now) }
    ensures { OnOk result (text.new ≡ text.old
        ++ numbers_text (config_of core.now.run task.now).steps (config_of core.now.run task.now).regs
        (length (open_groups (own task.now (history core.now.run))))) }
{
    let Some(config) = core.config(task)? else {
        unreachable!()
    };
    append_numbers(alloc, text, config.steps, &config.regs, core.groups(task))
}

/// Appends the line of a depend item.
fn append_item(text: &mut Draft, item: &Item) -> Result<(), AllocError>
    ensures { OnOk result (text.new ≡ text.old ++ joined (item_line item.now)) }
{
    text.push_str(kind(item.kind))?;
    text.push(' ')?;
    append_place(text, item.place)?;
    text.push('\n')
}

/// Appends how many depend items these are, and the line of each.
fn append_items(alloc: Global, text: &mut Draft, items: &[Item]) -> Result<(), AllocError>
    ensures { OnOk result (text.new
        ≡ text.old ++ listed (codes "items") (lines_of item_line items.now)) }
{
    append_count(alloc, text, "items", items.len())?;
    'items: for item in items {
        append_item(text, item)?;
    }
    Ok(())
}

/// What a task is, how far it has come, and its depend items.
pub(crate) fn task_text(
    alloc: Global,
    program: &Program,
    core: &Core,
    task: &TaskName,
) -> Result<Draft, AllocError>
    requires fits { Fits program.now core.now.run }
    requires there { IsTrue (is_spawned (history core.now.run) task.now) }
    ensures { IfOk result (λ text. text ≡ task_text program.now (history core.now.run) task.now) }
{
    let mut text = Draft::new(alloc);
    append_head(&mut text, program, core, task)?;
    append_own(alloc, &mut text, core, task)?;
    append_items(alloc, &mut text, core.items(task))?;
    Ok(text)
}
