//! Steps of a history, as text.

ghost use Rattle.std.specs.Prelude.{◌≡◌, ◌<◌, ◌≤◌, ◌++◌, ◌∷◌, [], IfOk, IsTrue, OnOk, codes, decimal, length, map, reverse, suc, if◌then◌else◌};
ghost use Rattle.tb_model.specs.Equivalent.{stands};
ghost use Rattle.tb_steps.specs.Scans.{history_of};
ghost use Rattle.tb_steps.specs.Entries.{departure};
ghost use Rattle.tb_view.specs.Lines.{event_line, line};
ghost use Rattle.tb_view.specs.Steps.{history_text, newest_lines, chosen_lines, chosen_text, AreStepsOf, count_of, IsCounted};

use crate::step_counts::StepCounts;
use crate::step_line::append_line;
use std::alloc::{AllocError, Global};
use tb_cause::place_among;
use tb_core::{Core, History};
use tb_draft::Draft;
use tb_model::{Action, StepId, TaskName};
use tb_read::Program;

/// How many steps there are, as a line.
pub fn history_head(alloc: Global, entries: &History<'_>) -> Result<Draft, AllocError>
    ensures { IfOk result (λ text. text ≡ line (codes "hist " ++ decimal (length entries.now))) }
{
    let count = entries.len();
    let head = format!(in alloc; "hist {count}\n")?;
    Ok(Draft::of(alloc, head))
}

/// How many steps there are, and the line of each.
pub(crate) fn history_text(
    alloc: Global,
    program: &Program,
    entries: &History<'_>,
) -> Result<Draft, AllocError>
    requires { length entries.now ≤ 1000000 }
    ensures { IfOk result (λ text. text ≡ history_text program.now (history_of entries.now)) }
{
    let mut text = history_head(alloc, entries)?;
    let mut counts = StepCounts::none(alloc);
    'steps: for at in 0..entries.len() {
        counts.append_next(&mut text, program, entries.task(at), entries.action(at))?;
    }
    Ok(text)
}

/// Counts the task's next step, which has this action, and appends its line where that is wanted.
fn append_if(
    text: &mut Draft,
    program: &Program,
    counts: &mut StepCounts,
    task: &TaskName,
    action: &Action,
    is_told: bool,
) -> Result<(), AllocError>
    requires { count_of counts.old task.now < 4294967295 }
    ensures text { OnOk result (text.new ≡ text.old ++ (if is_told then event_line program.now
        (record { task = task.now; k = suc (count_of counts.old task.now) })
        (record { task = task.now; action = action.now })
        else [])) }
    ensures counts { OnOk result (IsCounted counts.old task.now counts.new) }
{
    if is_told {
        counts.append_next(text, program, task, action)
    } else {
        counts.count(task)?;
        Ok(())
    }
}

/// Appends the lines of so many of the newest steps, in the order of the history.
pub fn append_newest(
    alloc: Global,
    text: &mut Draft,
    program: &Program,
    entries: &History<'_>,
    count: usize,
) -> Result<(), AllocError>
    requires bound { length entries.now ≤ 1000000 }
    requires few { count ≤ length entries.now }
    ensures { OnOk result (text.new
        ≡ text.old ++ newest_lines program.now count (history_of entries.now)) }
{
    let first = entries.len() - count;
    let mut counts = StepCounts::none(alloc);
    'steps: for at in 0..entries.len() {
        let (task, action) = (entries.task(at), entries.action(at));
        append_if(text, program, &mut counts, task, action, first <= at)?;
    }
    Ok(())
}

/// Appends the line of a step of the history.
fn append_step(
    text: &mut Draft,
    program: &Program,
    core: &Core,
    entries: &History<'_>,
    step: &StepId,
) -> Result<(), AllocError>
    requires same { map departure (reverse entries.now) ≡ core.now.run.steps }
    requires there { IsTrue (stands step.now (history_of entries.now)) }
    ensures { OnOk result (text.new
        ≡ text.old ++ chosen_lines program.now (step.now ∷ []) (history_of entries.now)) }
{
    let Some(at) = place_among(core, entries, step) else {
        unreachable!();
    };
    append_line(text, program, &step.task, step.k, entries.action(at))
}

/// How many steps these are, and the line of each. They are steps of the core's history, in its order.
pub(crate) fn chosen_text(
    alloc: Global,
    word: &str,
    program: &Program,
    core: &Core,
    entries: &History<'_>,
    steps: &[StepId],
) -> Result<Draft, AllocError>
    requires same { map departure (reverse entries.now) ≡ core.now.run.steps }
    requires steps { AreStepsOf (reverse steps.now) (history_of entries.now) }
    ensures { IfOk result (λ text. text
        ≡ chosen_text word.now program.now steps.now (history_of entries.now)) }
{
    let count = steps.len();
    let head = format!(in alloc; "{word} {count}\n")?;
    let mut text = Draft::of(alloc, head);
    for step in steps {
        append_step(&mut text, program, core, entries, step)?;
    }
    Ok(text)
}
