//! A planned step, with its entry in the journal.

ghost use Rattle.std.specs.Prelude.{◌≡◌, ◌<◌, ◌≤◌, IfOk, IfErr, OnOk, OnErr, Some, None, length, slice_get};
ghost use Rattle.tb_model.specs.declared.event.Event.{Event as AnEvent};
ghost use Rattle.tb_model.specs.Program.{Program};
ghost use Rattle.tb_core.specs.Outcomes.{Fits, IsCurrent, IsOpen, MayTake, event_of};
ghost use Rattle.tb_core.specs.Seen.{history};
ghost use Rattle.tb_control.specs.Controls.{behind_step};
ghost use Rattle.tb_next.specs.Floor.{IsCarried};
ghost use Rattle.tb_live.specs.Moves.{for_least};
ghost use Rattle.tb_live.specs.Entering.{Enters, IsEntered, IsKeptFrom, IsTaken, has_no_place};
ghost use Rattle.tb_next.specs.Plans.{IsClear, IsNext, IsStepOf};
ghost use Rattle.tb_live.specs.Preparing.{HasRoom, IsReadied};

use crate::prepared::{Prepared, forget};
use std::alloc::AllocError;
use tb_control::Control;
use tb_core::{Core, StepRefusal};
use tb_journal::{Journal, stands_apart};
use tb_model::{Action, Event, StepId, TaskName};
use tb_next::{Coming, Floor};
use tb_plan::Plan;

/// Reserves all capacity for the step of a plan and for its entry, and returns the event, twice.
/// The journal has more entries than the history has events. What was prepared is given up for it,
/// but at no refusal.
pub fn ready_step(
    core: &mut Core,
    journal: &mut Journal,
    prepared: &mut Option<Prepared>,
    floor: &mut Floor,
    limit: u32,
    plan: &Plan,
) -> Result<(Event, Event), StepRefusal>
    requires fits { Fits core.old.run plan.now }
    requires limit { core.old.run.limit ≡ limit }
    requires shorter { length core.old.run.steps < length journal.old.items }
    ensures run { core.new.run ≡ core.old.run }
    ensures entries { journal.new.items ≡ journal.old.items }
    ensures readied { IfOk result (λ p. IsReadied limit core.new plan.now journal.old.items journal.new.room p.0) }
    ensures copy { IfOk result (λ p. p.1 ≡ p.0) }
    ensures refused { IfErr result (IsKeptFrom core.old.run plan.now
        (has_no_place limit journal.old.items)) }
    ensures given_up { OnOk result (prepared.new ≡ None) }
    ensures kept { OnErr result (prepared.new ≡ prepared.old) }
    ensures serves { (P : Program)
        → HasRoom limit P core.old journal.old.items journal.old.room prepared.old
        → HasRoom limit P core.new journal.new.items journal.new.room prepared.new }
    ensures floor { floor.new ≡ floor.old }
{
    if limit as usize <= journal.len() {
        return Err(core.refusal(plan).unwrap_or(StepRefusal::Full));
    }
    if journal.reserve().is_err() {
        return Err(core.refusal(plan).unwrap_or(StepRefusal::Memory));
    }
    match core.reserve_step(plan) {
        Ok(events) => {
            forget(prepared);
            floor.ready(&plan.config.task, &plan.action);
            Ok(events)
        }
        Err(refusal) => Err(refusal),
    }
}

/// Executes a step for which all capacity is reserved, and enters it for the seat. It takes no
/// memory.
pub fn enter_readied(
    core: &mut Core,
    journal: &mut Journal,
    control: &mut Control,
    floor: &mut Floor,
    seat: u32,
    plan: Plan,
    event: Event,
) -> StepId
    requires fits { Fits core.old.run plan }
    requires open { IsOpen core.old.run plan }
    requires event { event ≡ event_of core.old.run plan }
    requires reserved { core.old.reserved ≡ Some event }
    requires spare { 0 < journal.old.room }
    ensures entered { IsEntered seat core.old.run plan core.new.run
        journal.old.items journal.new.items result }
    ensures control { control.new ≡ behind_step plan.config.at event control.old }
    ensures floor { IsCarried (history core.new.run) floor.old floor.new }
{
    let line = plan.config.at;
    let id = core.step_reserved(plan);
    floor.step_taken(core);
    control.step_taken(line, &event.task, &event.action);
    journal.push_step(seat, event);
    id
}

/// Executes what a task does next, that nothing blocks, and enters it for the seat: nothing is
/// asked again but whether the journal has a slot. What was prepared is given up for it, but at no
/// refusal.
#[inline(always)]
pub fn enter_clear(
    core: &mut Core,
    journal: &mut Journal,
    control: &mut Control,
    prepared: &mut Option<Prepared>,
    floor: &mut Floor,
    limit: u32,
    seat: u32,
    task: TaskName,
    coming: Coming,
) -> Result<StepId, StepRefusal>
    requires clear { IsClear core.old.run task coming }
    requires limit { core.old.run.limit ≡ limit }
    requires shorter { length core.old.run.steps < length journal.old.items }
    ensures entered { (p : Plan) → IsStepOf task coming p → IsCurrent core.old.run p
        → Enters limit seat core.old.run p core.new.run journal.old.items journal.new.items control.old control.new result }
    ensures kept { OnErr result (prepared.new ≡ prepared.old) }
    ensures serves { (P : Program)
        → HasRoom limit P core.old journal.old.items journal.old.room prepared.old
        → HasRoom limit P core.new journal.new.items journal.new.room prepared.new }
    ensures carried { OnOk result (IsCarried (history core.new.run) floor.old floor.new) }
    ensures stays { OnErr result (floor.new ≡ floor.old) }
{
    if limit as usize <= journal.len() {
        return Err(StepRefusal::Full);
    }
    if journal.reserve().is_err() {
        return Err(StepRefusal::Memory);
    }
    floor.ready(&task, &coming.action);
    let Coming {
        action,
        at,
        to,
        steps,
    } = coming;
    match take(core, journal, seat, &task, action, to) {
        Ok(()) => {
            forget(prepared);
            floor.step_taken(core);
            follow(control, core, at);
            Ok(StepId { task, k: steps + 1 })
        }
        Err(_) => Err(StepRefusal::Memory),
    }
}

/// Turns to the task of the search start, which was found after a search, executes what it does
/// next, and enters it for the seat.
// out of line: a task's step after its own doesn't pay for its stack frame
#[inline(never)]
pub fn enter_apart(
    core: &mut Core,
    journal: &mut Journal,
    control: &mut Control,
    prepared: &mut Option<Prepared>,
    floor: &mut Floor,
    limit: u32,
    seat: u32,
    found: (TaskName, Coming),
) -> Result<StepId, StepRefusal>
    requires clear { IsClear core.old.run found.0 found.1 }
    requires limit { core.old.run.limit ≡ limit }
    requires shorter { length core.old.run.steps < length journal.old.items }
    ensures entered { (p : Plan) → IsStepOf found.0 found.1 p → IsCurrent core.old.run p
        → Enters limit seat core.old.run p core.new.run journal.old.items journal.new.items control.old control.new result }
    ensures kept { OnErr result (prepared.new ≡ prepared.old) }
    ensures serves { (P : Program)
        → HasRoom limit P core.old journal.old.items journal.old.room prepared.old
        → HasRoom limit P core.new journal.new.items journal.new.room prepared.new }
    ensures carried { OnOk result (IsCarried (history core.new.run) floor.old floor.new) }
    ensures stays { OnErr result (floor.new ≡ floor.old) }
{
    core.turn_to(floor.near(), &found.0);
    enter_clear(
        core, journal, control, prepared, floor, limit, seat, found.0, found.1,
    )
}

/// The answer for a task that was looked for.
#[inline(always)]
pub fn for_least(stepped: Result<StepId, StepRefusal>) -> Result<Option<StepId>, StepRefusal>
    ensures { result ≡ for_least stepped }
{
    match stepped {
        Ok(id) => Ok(Some(id)),
        Err(refusal) => Err(refusal),
    }
}

/// Follows the newest step, whose task was at the line.
#[inline(always)]
fn follow(control: &mut Control, core: &Core, line: u32)
    ensures { (v : AnEvent) → slice_get (history core.now.run) 0 ≡ Some v →
        control.new ≡ behind_step line v control.old }
{
    if let Some((task, action)) = core.newest() {
        control.step_taken(line, task, action);
    }
}

/// Executes an action that nothing blocks, and enters it for the seat. Most entries are read off
/// the history's newest event; one that shares memory with its event, or is stored out of line, is
/// copied before the step.
#[inline(always)]
fn take(
    core: &mut Core,
    journal: &mut Journal,
    seat: u32,
    task: &TaskName,
    action: Action,
    to: u32,
) -> Result<(), AllocError>
    requires may { MayTake core.old.run task.now action }
    requires room { 0 < journal.old.room }
    ensures ok { OnOk result (IsTaken seat core.old.run task.now action to core.new.run
        journal.old.items journal.new.items) }
    ensures err { OnErr result ((core.new ≡ core.old) × (journal.new.items ≡ journal.old.items) × (journal.old.room ≤ journal.new.room)) }
{
    if stands_apart(seat, &action) {
        let event = core.step_copied(task, action, to)?;
        journal.push_step(seat, event);
        return Ok(());
    }
    let new = journal.turn_for(task)?;
    core.step_clear(task, action, to)?;
    match core.newest() {
        Some((_, action)) => journal.push_short(seat, new, action),
        None => unreachable!(),
    }
    Ok(())
}

/// Executes what a task does next, where nothing blocks that, and enters it for the seat. What was
/// prepared is retained where the step is refused.
pub fn enter_step(
    core: &mut Core,
    journal: &mut Journal,
    control: &mut Control,
    prepared: &mut Option<Prepared>,
    floor: &mut Floor,
    limit: u32,
    seat: u32,
    task: &TaskName,
    coming: Coming,
) -> Result<StepId, StepRefusal>
    requires next { IsNext core.old.run task.now coming }
    requires limit { core.old.run.limit ≡ limit }
    requires shorter { length core.old.run.steps < length journal.old.items }
    ensures entered { (p : Plan) → IsStepOf task.now coming p → IsCurrent core.old.run p
        → Enters limit seat core.old.run p core.new.run journal.old.items journal.new.items control.old control.new result }
    ensures kept { OnErr result (prepared.new ≡ prepared.old) }
    ensures serves { (P : Program)
        → HasRoom limit P core.old journal.old.items journal.old.room prepared.old
        → HasRoom limit P core.new journal.new.items journal.new.room prepared.new }
    ensures carried { OnOk result (IsCarried (history core.new.run) floor.old floor.new) }
    ensures stays { OnErr result (floor.new ≡ floor.old) }
{
    let Some(standing) = core.standing(task) else {
        unreachable!();
    };
    if let Some(refusal) = core.hindrance(&standing, task, &coming.action) {
        return Err(refusal);
    }
    if limit as usize <= journal.len() {
        return Err(StepRefusal::Full);
    }
    match task.clone() {
        Ok(name) => enter_clear(
            core, journal, control, prepared, floor, limit, seat, name, coming,
        ),
        Err(_) => Err(StepRefusal::Memory),
    }
}
