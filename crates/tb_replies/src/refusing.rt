//! The lines of refusals.

ghost use Rattle.std.specs.Prelude.{◌≡◌, IfOk};
ghost use Rattle.tb_replies.specs.Texts.{refused, refused_for, refused_with};

use std::alloc::{AllocError, Global};
use tb_draft::Draft;
use tb_model::{StepId, TaskName};

/// The line of a refusal that carries nothing.
pub fn refused(alloc: Global, number: u8, name: &str) -> Result<Draft, AllocError>
    ensures { IfOk result (λ text. text ≡ refused number name.now) }
{
    let text = format!(in alloc; "refused {number} {name}\n")?;
    Ok(Draft::of(alloc, text))
}

/// The line of a refusal that carries a task.
pub fn refused_for(
    alloc: Global,
    number: u8,
    name: &str,
    task: &TaskName,
) -> Result<Draft, AllocError>
    ensures { IfOk result (λ text. text ≡ refused_for number name.now task.now) }
{
    let begin = format!(in alloc; "refused {number} {name} ")?;
    let mut text = Draft::of(alloc, begin);
    text.push_name(task)?;
    text.push('\n')?;
    Ok(text)
}

/// The line of a refusal that carries a step.
pub fn refused_with(alloc: Global, number: u8, name: &str, id: &StepId) -> Result<Draft, AllocError>
    ensures { IfOk result (λ text. text ≡ refused_with number name.now id.now) }
{
    let begin = format!(in alloc; "refused {number} {name} ")?;
    let mut text = Draft::of(alloc, begin);
    text.push_step(&id.task, id.k)?;
    text.push('\n')?;
    Ok(text)
}
