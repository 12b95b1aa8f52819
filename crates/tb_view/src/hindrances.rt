//! What blocks a task's step, as text.

ghost use Rattle.std.specs.Prelude.{◌≡◌, ◌≤◌, ◌++◌, IfOk, IfSome, OnOk, length, codes};
ghost use Rattle.tb_model.specs.Spelling.{name_text};
ghost use Rattle.tb_view.specs.Lines.{line};
ghost use Rattle.tb_view.specs.Listing.{joined};
ghost use Rattle.tb_core.specs.Refusals.{told_by};
ghost use Rattle.tb_view.specs.Waits.{wait_by};

use std::alloc::AllocError;
use tb_core::StepRefusal;
use tb_draft::{Draft, ShortText};
use tb_model::TaskName;

/// Puts the line of a task, of a kind of hindrance and of the task that is in the way in front, if
/// there is capacity.
fn put_kind(text: &mut ShortText, task: &TaskName, kind: &str, other: &TaskName) -> Option<()>
    ensures { IfSome result (λ _. text.new
        ≡ line (name_text task.now ++ codes " " ++ (kind.now ++ name_text other.now)) ++ text.old) }
{
    text.prepend("\n")?;
    text.prepend_name(other)?;
    text.prepend(kind)?;
    text.prepend(" ")?;
    text.prepend_name(task)
}

/// Appends the same line, however long it is.
#[inline(never)]
fn append_long(
    text: &mut Draft,
    task: &TaskName,
    kind: &str,
    other: &TaskName,
) -> Result<(), AllocError>
    ensures { OnOk result (text.new ≡ text.old
        ++ line (name_text task.now ++ codes " " ++ (kind.now ++ name_text other.now))) }
{
    text.push_name(task)?;
    text.push(' ')?;
    text.push_str(kind)?;
    text.push_name(other)?;
    text.push('\n')
}

/// Appends the line of a task, of a kind of hindrance and of the task that is in the way.
fn append_kind(
    text: &mut Draft,
    task: &TaskName,
    kind: &str,
    other: &TaskName,
) -> Result<usize, AllocError>
    ensures text { OnOk result (text.new ≡ text.old
        ++ line (name_text task.now ++ codes " " ++ (kind.now ++ name_text other.now))) }
    ensures count { IfOk result (λ n. n ≡ 1) }
{
    let mut line = ShortText::new();
    match put_kind(&mut line, task, kind, other) {
        Some(()) => text.push_str(line.as_str())?,
        None => append_long(text, task, kind, other)?,
    }
    Ok(1)
}

/// Appends what blocks the task's step, unless it has ended, and returns how many lines that took.
pub(crate) fn append_hindrance(
    text: &mut Draft,
    task: &TaskName,
    refusal: &StepRefusal,
) -> Result<usize, AllocError>
    ensures text { OnOk result (text.new
        ≡ text.old ++ joined (wait_by task.now (told_by refusal.now))) }
    ensures count { IfOk result (λ n. n ≡ length (wait_by task.now (told_by refusal.now))) }
    ensures few { IfOk result (λ n. n ≤ 1) }
{
    match refusal {
        StepRefusal::Undeferred { child } => append_kind(text, task, "Undeferred ", child),
        StepRefusal::Waiting { pred } => append_kind(text, task, "Waiting ", pred),
        StepRefusal::Excluded { by } => append_kind(text, task, "Excluded ", by),
        StepRefusal::Children { first } => append_kind(text, task, "Children ", first),
        StepRefusal::Group { first } => append_kind(text, task, "Group ", first),
        _ => Ok(0),
    }
}
