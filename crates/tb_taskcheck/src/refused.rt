//! The report of a run with an event that may not follow.

ghost use Rattle.std.specs.Prelude.{◌≡◌, ◌++◌, IfOk, OnOk, codes, decimal};
ghost use Rattle.tb_model.specs.Spelling.{name_text};
ghost use Rattle.tb_taskcheck.specs.Report.{carried, refused_text, title_of};

use itoa::Buffer;
use std::alloc::{AllocError, Global};
use tb_draft::Draft;
use tb_model::TaskName;
use tb_verdict::Refusal;

/// The name of the refusal.
fn title(refusal: &Refusal) -> &'static str
    ensures { result.now ≡ title_of refusal.now }
{
    match refusal {
        Refusal::NoSuchTask => "NoSuchTask",
        Refusal::Ended => "Ended",
        Refusal::Waiting { .. } => "Waiting",
        Refusal::Excluded { .. } => "Excluded",
        Refusal::Children { .. } => "Children",
        Refusal::Group { .. } => "Group",
        Refusal::Undeferred { .. } => "Undeferred",
        Refusal::NotStarted => "NotStarted",
        Refusal::Started => "Started",
        Refusal::Reads { .. } => "Reads",
        Refusal::Child { .. } => "Child",
        Refusal::NoGroup => "NoGroup",
        Refusal::Step { .. } => "Step",
    }
}

/// Appends a number in decimal.
fn push_count(draft: &mut Draft, n: u64) -> Result<(), AllocError>
    ensures { OnOk result (draft.new ≡ draft.old ++ decimal n) }
{
    draft.push_str(Buffer::new().format(n))
}

fn push_task(draft: &mut Draft, task: &TaskName) -> Result<(), AllocError>
    ensures { OnOk result (draft.new ≡ draft.old ++ (codes " " ++ name_text task.now)) }
{
    draft.push_str(" ")?;
    draft.push_name(task)
}

/// Appends what the refusal carries, if it carries something.
fn push_carried(draft: &mut Draft, refusal: &Refusal) -> Result<(), AllocError>
    ensures { OnOk result (draft.new ≡ draft.old ++ carried refusal.now) }
{
    match refusal {
        Refusal::Waiting { pred: task }
        | Refusal::Excluded { by: task }
        | Refusal::Children { first: task }
        | Refusal::Group { first: task }
        | Refusal::Undeferred { child: task }
        | Refusal::Child { due: task } => push_task(draft, task),
        Refusal::Reads { number } => {
            draft.push_str(" ")?;
            draft.push_signed(*number)
        }
        Refusal::Step { due } => {
            draft.push_str(" ")?;
            push_count(draft, *due)
        }
        Refusal::NoSuchTask
        | Refusal::Ended
        | Refusal::NotStarted
        | Refusal::Started
        | Refusal::NoGroup => Ok(()),
    }
}

/// The report that the event of the line with this number may not follow, and why.
pub fn refused_report(alloc: Global, line: u64, refusal: &Refusal) -> Result<Draft, AllocError>
    ensures { IfOk result (λ draft. draft ≡ refused_text line refusal.now) }
{
    let mut draft = Draft::new(alloc);
    draft.push_str("line ")?;
    push_count(&mut draft, line)?;
    draft.push_str(": refused ")?;
    draft.push_number(u32::from(refusal.number()))?;
    draft.push_str(" ")?;
    draft.push_str(title(refusal))?;
    push_carried(&mut draft, refusal)?;
    draft.push_str("\n")?;
    Ok(draft)
}
