//! How far a task is, as text.

ghost use Rattle.std.specs.Prelude.{◌≡◌, ◌++◌, OnOk, codes, if◌then◌else◌};
ghost use Rattle.tb_model.specs.Program.{instr_at};
ghost use Rattle.tb_read.specs.Followed.{IsFollowed, is_last};
ghost use Rattle.tb_core.specs.Seen.{history};
ghost use Rattle.tb_live.specs.Soundness.{Fits};
ghost use Rattle.tb_view.specs.Tasks.{number_if_any, state_text};

use std::alloc::AllocError;
use tb_core::Core;
use tb_draft::Draft;
use tb_model::{Statement, TaskName};
use tb_read::Program;

/// Whether the line is the end of a body.
fn is_last(program: &Program, at: u32) -> bool
    requires { IsFollowed program.now }
    ensures { result ≡ is_last (instr_at program.now at).statement }
{
    match program.instr(at) {
        Some(instr) => matches!(instr.statement, Statement::End),
        None => true,
    }
}

fn ending(last: bool) -> &'static str
    ensures { result.now ≡ (if last then codes "ended" else codes "faulted") }
{
    if last { "ended" } else { "faulted" }
}

/// How far the task is, in a word, and the line at which it is while it is under way. A task that
/// is over retains its line: an end leaves it at the end of its body, and a fault doesn't. In a
/// walk over tasks it hands on where the last one was found.
pub(crate) fn state(
    program: &Program,
    core: &Core,
    near: &mut Option<usize>,
    task: &TaskName,
) -> (&'static str, Option<u32>)
    requires { Fits program.now core.now.run }
    ensures { state_text program.now (history core.now.run) task.now ≡ result.0.now ++ number_if_any result.1 }
{
    let Some(standing) = core.walk_standing(near, task) else {
        // what isn't there has executed no step
        return ("pending", None);
    };
    if standing.steps() == 0 {
        return ("pending", None);
    }
    let at = standing.at();
    if !core.has_ended_at(&standing, task) {
        return ("running ", Some(at));
    }
    (ending(is_last(program, at)), None)
}

/// Appends a word, and the number where there is one.
pub(crate) fn append_state(
    text: &mut Draft,
    word: &str,
    number: Option<u32>,
) -> Result<(), AllocError>
    ensures { OnOk result (text.new ≡ text.old ++ word.now ++ number_if_any number) }
{
    text.push_str(word)?;
    match number {
        Some(n) => text.push_number(n),
        None => Ok(()),
    }
}
