//! The texts of views.

ghost use Rattle.std.specs.Prelude.{◌≡◌, ℕ, List, IfOk, IfErr};
ghost use Rattle.tb_view.specs.Lines.{removal_line};
ghost use Rattle.tb_view.specs.Views.{IsShown, IsRefused};
ghost use Rattle.tb_view.specs.declared.view.View.TheVariants as view;
ghost use Rattle.tb_view.specs.declared.view_refusal.ViewRefusal.TheVariants as refusal;

use crate::breaks::breaks_text;
use crate::numbers::{cells_text, out_text};
use crate::reasons::{causes_text, edges_text, races_text};
use crate::relations::deps_text;
use crate::step_line::append_line;
use crate::steps::{chosen_text, history_text};
use crate::task_text::task_text;
use crate::tasks::tasks_text;
use crate::view::View;
use crate::view_refusal::ViewRefusal;
use crate::waits::{ready_text, waits_text};
use std::alloc::{AllocError, Global};
use tb_cause::{CauseRefusal, needed_by, needs};
use tb_draft::Draft;
use tb_live::{Live, Removed};
use tb_model::{StepId, TaskName};
use tb_order::{causes, edges, races};

/// The text, or that memory ran out.
fn told(text: Result<Draft, AllocError>) -> Result<Draft, ViewRefusal>
    ensures ok { (own : List ℕ) → IfOk text (λ given. given ≡ own) →
        IfOk result (λ given. given ≡ own) }
    ensures err { IfErr result (λ e. e ≡ refusal.Memory) }
{
    match text {
        Ok(text) => Ok(text),
        Err(_) => Err(ViewRefusal::Memory),
    }
}

fn why_text(alloc: Global, live: &Live, id: &StepId) -> Result<Draft, ViewRefusal>
    ensures shown { IfOk result (λ text. IsShown live.now.session (view.Why id.now) text) }
    ensures refused { IfErr result (IsRefused live.now.session (view.Why id.now)) }
{
    let core = live.core();
    match needs(alloc, core, id) {
        Ok(steps) => {
            let entries = core.legal_entries();
            told(chosen_text(alloc, "why", live.program(), core, &entries, &steps))
        }
        Err(CauseRefusal::NoSuchStep) => Err(ViewRefusal::NoSuchStep),
        Err(CauseRefusal::Memory) => Err(ViewRefusal::Memory),
    }
}

fn needed_at_once(alloc: Global, live: &Live, id: &StepId) -> Result<Draft, ViewRefusal>
    ensures shown { IfOk result (λ text. IsShown live.now.session (view.Causes id.now) text) }
    ensures refused { IfErr result (IsRefused live.now.session (view.Causes id.now)) }
{
    let core = live.core();
    match causes(alloc, core, id) {
        Ok(causes) => {
            let entries = core.legal_entries();
            told(causes_text(alloc, live.program(), &entries, &causes))
        }
        Err(CauseRefusal::NoSuchStep) => Err(ViewRefusal::NoSuchStep),
        Err(CauseRefusal::Memory) => Err(ViewRefusal::Memory),
    }
}

fn raced(alloc: Global, live: &Live) -> Result<Draft, ViewRefusal>
    ensures shown { IfOk result (λ text. IsShown live.now.session view.Races text) }
    ensures refused { IfErr result (IsRefused live.now.session view.Races) }
{
    match races(alloc, live.core()) {
        Ok(races) => told(races_text(alloc, &races)),
        Err(_) => Err(ViewRefusal::Memory),
    }
}

fn needed_in_all(alloc: Global, live: &Live) -> Result<Draft, ViewRefusal>
    ensures shown { IfOk result (λ text. IsShown live.now.session view.Edges text) }
    ensures refused { IfErr result (IsRefused live.now.session view.Edges) }
{
    match edges(alloc, live.core()) {
        Ok(edges) => told(edges_text(alloc, &edges)),
        Err(_) => Err(ViewRefusal::Memory),
    }
}

fn who_text(alloc: Global, live: &Live, id: &StepId) -> Result<Draft, ViewRefusal>
    ensures shown { IfOk result (λ text. IsShown live.now.session (view.Who id.now) text) }
    ensures refused { IfErr result (IsRefused live.now.session (view.Who id.now)) }
{
    let core = live.core();
    match needed_by(alloc, core, id) {
        Ok(steps) => {
            let entries = core.legal_entries();
            told(chosen_text(alloc, "who", live.program(), core, &entries, &steps))
        }
        Err(CauseRefusal::NoSuchStep) => Err(ViewRefusal::NoSuchStep),
        Err(CauseRefusal::Memory) => Err(ViewRefusal::Memory),
    }
}

fn one_task(alloc: Global, live: &Live, task: &TaskName) -> Result<Draft, ViewRefusal>
    ensures shown { IfOk result (λ text. IsShown live.now.session (view.Task task.now) text) }
    ensures refused { IfErr result (IsRefused live.now.session (view.Task task.now)) }
{
    let core = live.core();
    if !core.is_there(task) {
        return Err(ViewRefusal::NoSuchTask);
    }
    told(task_text(alloc, live.program(), core, task))
}

fn relations(alloc: Global, live: &Live, task: &TaskName) -> Result<Draft, ViewRefusal>
    ensures shown { IfOk result (λ text. IsShown live.now.session (view.Deps task.now) text) }
    ensures refused { IfErr result (IsRefused live.now.session (view.Deps task.now)) }
{
    let core = live.core();
    if !core.is_there(task) {
        return Err(ViewRefusal::NoSuchTask);
    }
    told(deps_text(alloc, core, task))
}

/// What the view shows, with its long names still to be spelled.
pub fn draft(alloc: Global, live: &Live, view: &View) -> Result<Draft, ViewRefusal>
    ensures shown { IfOk result (λ text. IsShown live.now.session view.now text) }
    ensures refused { IfErr result (IsRefused live.now.session view.now) }
{
    match view {
        View::Cells => told(cells_text(alloc, live.cells())),
        View::Out => told(out_text(alloc, live.output())),
        View::Hist => {
            let entries = live.core().legal_entries();
            told(history_text(alloc, live.program(), &entries))
        }
        View::Why { id } => why_text(alloc, live, id),
        View::Causes { id } => needed_at_once(alloc, live, id),
        View::Who { id } => who_text(alloc, live, id),
        View::Races => raced(alloc, live),
        View::Edges => needed_in_all(alloc, live),
        View::Tasks => told(tasks_text(alloc, live.program(), live.core())),
        View::Task { task } => one_task(alloc, live, task),
        View::Ready => told(ready_text(alloc, live)),
        View::Waits => told(waits_text(alloc, live)),
        View::Deps { task } => relations(alloc, live, task),
        View::Breaks => told(breaks_text(alloc, live.program(), live.breakpoints())),
    }
}

/// What the view shows. A view that is refused has written nothing.
pub fn text(alloc: Global, live: &Live, view: &View) -> Result<Vec<u8>, ViewRefusal>
    ensures shown { IfOk result (λ text. IsShown live.now.session view.now text.items) }
    ensures refused { IfErr result (IsRefused live.now.session view.now) }
{
    match draft(alloc, live, view)?.into_string() {
        Ok(text) => Ok(text.into_bytes()),
        Err(_) => Err(ViewRefusal::Memory),
    }
}

/// The line of a step that was taken back.
pub fn line(alloc: Global, live: &Live, removed: &Removed) -> Result<Vec<u8>, AllocError>
    ensures { IfOk result (λ text. text.items ≡ removal_line live.now.session.program removed.now) }
{
    let mut text = Draft::new(alloc);
    let id = &removed.id;
    append_line(&mut text, live.program(), &id.task, id.k, &removed.action)?;
    Ok(text.into_string()?.into_bytes())
}
