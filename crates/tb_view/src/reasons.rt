//! Immediate needs and races, as text.

ghost use Rattle.std.specs.Prelude.{◌≡◌, ◌++◌, IfOk, OnOk};
ghost use Rattle.tb_steps.specs.Scans.{history_of};
ghost use Rattle.tb_draft.specs.Races.{races_text};
ghost use Rattle.tb_view.specs.Reasons;

use crate::step_line::append_line;
use std::alloc::{AllocError, Global};
use tb_core::{History, place_of};
use tb_draft::Draft;
use tb_model::StepId;
use tb_order::Edge;
use tb_races::{Cause, NeedKind, Race};
use tb_read::Program;

/// Appends the kind of a need.
fn append_kind(text: &mut Draft, kind: NeedKind) -> Result<(), AllocError>
    ensures { OnOk result (text.new ≡ text.old ++ Reasons.need_text kind) }
{
    match kind {
        NeedKind::Task => text.push_str("task"),
        NeedKind::Spawn => text.push_str("spawn"),
        NeedKind::Conflict(conflict) => text.push_conflict(conflict),
        NeedKind::Before => text.push_str("before"),
        NeedKind::Apart => text.push_str("apart"),
        NeedKind::Wait => text.push_str("wait"),
        NeedKind::Group => text.push_str("group"),
        NeedKind::Undeferred => text.push_str("undeferred"),
    }
}

/// Appends the line of a step of the history, and nothing for other steps.
fn append_step(
    text: &mut Draft,
    program: &Program,
    entries: &History<'_>,
    step: &StepId,
) -> Result<(), AllocError>
    ensures { OnOk result (text.new
        ≡ text.old ++ Reasons.line_of program.now step.now (history_of entries.now)) }
{
    match place_of(entries, step) {
        Some(at) => append_line(text, program, entries.task(at), step.k, entries.action(at)),
        None => Ok(()),
    }
}

/// Appends the kind of a need and the line of the step that is needed.
fn append_cause(
    text: &mut Draft,
    program: &Program,
    entries: &History<'_>,
    cause: &Cause,
) -> Result<(), AllocError>
    ensures { OnOk result (text.new
        ≡ text.old ++ Reasons.cause_line program.now (history_of entries.now) cause.now) }
{
    append_kind(text, cause.kind)?;
    text.push_str(": ")?;
    append_step(text, program, entries, &cause.step)
}

/// How many immediate needs these are, and the line of each.
pub(crate) fn causes_text(
    alloc: Global,
    program: &Program,
    entries: &History<'_>,
    causes: &[Cause],
) -> Result<Draft, AllocError>
    ensures { IfOk result (λ text. text
        ≡ Reasons.causes_text program.now (history_of entries.now) causes.now) }
{
    let count = causes.len();
    let head = format!(in alloc; "causes {count}\n")?;
    let mut text = Draft::of(alloc, head);
    'causes: for cause in causes {
        append_cause(&mut text, program, entries, cause)?;
    }
    Ok(text)
}

/// How many races these are, and the line of each.
pub(crate) fn races_text(alloc: Global, races: &[Race]) -> Result<Draft, AllocError>
    ensures { IfOk result (λ text. text ≡ races_text races.now) }
{
    let count = races.len();
    let head = format!(in alloc; "races {count}\n")?;
    let mut text = Draft::of(alloc, head);
    'races: for race in races {
        text.push_race(race)?;
    }
    Ok(text)
}

/// Appends the line of an immediate need.
fn append_edge(text: &mut Draft, edge: &Edge) -> Result<(), AllocError>
    ensures { OnOk result (text.new ≡ text.old ++ Reasons.edge_line edge.now) }
{
    text.push_pair(&edge.earlier, &edge.later)?;
    text.push(' ')?;
    append_kind(text, edge.kind)?;
    text.push('\n')
}

/// How many immediate needs all steps have, and the line of each.
pub(crate) fn edges_text(alloc: Global, edges: &[Edge]) -> Result<Draft, AllocError>
    ensures { IfOk result (λ text. text ≡ Reasons.edges_text edges.now) }
{
    let count = edges.len();
    let head = format!(in alloc; "edges {count}\n")?;
    let mut text = Draft::of(alloc, head);
    'edges: for edge in edges {
        append_edge(&mut text, edge)?;
    }
    Ok(text)
}
