//! A plan that was made at some time, and is taken now.

ghost use Rattle.std.specs.Prelude.{◌≡◌, ◌<◌, IfOk, IfErr, IsOk, OnOk, OnErr, Some, None, length};
ghost use Rattle.tb_core.specs.Outcomes.{IsOpen};
ghost use Rattle.tb_core.specs.Seen.{history};
ghost use Rattle.tb_control.specs.Claims.{claim_of};
ghost use Rattle.tb_next.specs.Floor.{IsCarried};
ghost use Rattle.tb_live.specs.Entering.{Enters, EntersOn, IsKeptFrom, has_no_place};
ghost use Rattle.tb_next.specs.Plans.{IsNative};
ghost use Rattle.tb_live.specs.Preparing.{HasRoom, HoldsStep, IsReadied};
ghost use Rattle.tb_next.specs.Fitting.{Fits};

use crate::prepared::{Prepared, first_of, holds_step, take_step};
use crate::stepping::{enter_readied, ready_step};
use tb_control::Control;
use tb_core::{Core, StepRefusal};
use tb_journal::Journal;
use tb_model::{Event, StepId};
use tb_next::Floor;
use tb_plan::Plan;
use tb_read::Program;

/// The event of a plan, with all capacity reserved for its step: what is prepared for the task, if
/// something is, and then without memory. A refusal retains what is prepared.
fn event_for(
    program: &Program,
    core: &mut Core,
    journal: &mut Journal,
    prepared: &mut Option<Prepared>,
    floor: &mut Floor,
    limit: u32,
    seat: u32,
    plan: &Plan,
) -> Result<Event, StepRefusal>
    requires fits { Fits program.now core.old.run }
    requires native { IsNative program.now core.old.run plan.now }
    requires limit { core.old.run.limit ≡ limit }
    requires shorter { length core.old.run.steps < length journal.old.items }
    requires room { HasRoom limit program.now core.old journal.old.items journal.old.room prepared.old }
    ensures run { core.new.run ≡ core.old.run }
    ensures entries { journal.new.items ≡ journal.old.items }
    ensures readied { IfOk result (IsReadied limit core.new plan.now journal.old.items journal.new.room) }
    ensures refused { IfErr result (IsKeptFrom core.old.run plan.now
        (has_no_place limit journal.old.items)) }
    ensures given_up { OnOk result (prepared.new ≡ None) }
    ensures kept { OnErr result (prepared.new ≡ prepared.old) }
    ensures serves { HasRoom limit program.now core.new journal.new.items journal.new.room prepared.new }
    ensures succeeds { HoldsStep prepared.old seat plan.now.config.task
        → IsOpen core.old.run plan.now → IsOk result }
    ensures floor { floor.new ≡ floor.old }
{
    if !holds_step(prepared, seat, &plan.config.task) {
        return match ready_step(core, journal, prepared, floor, limit, plan) {
            Ok(events) => Ok(first_of(events)),
            Err(refusal) => Err(refusal),
        };
    }
    if let Some(refusal) = core.refusal(plan) {
        return Err(refusal);
    }
    match take_step(prepared) {
        Some(event) => Ok(event),
        None => unreachable!(),
    }
}

/// Executes the step of a plan of the program, and enters it for the seat. A refusal retains what
/// is prepared.
pub fn enter_plan(
    program: &Program,
    core: &mut Core,
    journal: &mut Journal,
    control: &mut Control,
    prepared: &mut Option<Prepared>,
    floor: &mut Floor,
    limit: u32,
    seat: u32,
    plan: Plan,
) -> Result<StepId, StepRefusal>
    requires fits { Fits program.now core.old.run }
    requires native { IsNative program.now core.old.run plan }
    requires limit { core.old.run.limit ≡ limit }
    requires shorter { length core.old.run.steps < length journal.old.items }
    requires room { HasRoom limit program.now core.old journal.old.items journal.old.room prepared.old }
    ensures entered { Enters limit seat core.old.run plan core.new.run journal.old.items journal.new.items control.old control.new result }
    ensures kept { OnErr result (prepared.new ≡ prepared.old) }
    ensures serves { HasRoom limit program.now core.new journal.new.items journal.new.room prepared.new }
    ensures succeeds { HoldsStep prepared.old seat plan.config.task
        → IsOpen core.old.run plan → IsOk result }
    ensures carried { OnOk result (IsCarried (history core.new.run) floor.old floor.new) }
    ensures stays { OnErr result (floor.new ≡ floor.old) }
{
    match event_for(program, core, journal, prepared, floor, limit, seat, &plan) {
        Ok(event) => Ok(enter_readied(core, journal, control, floor, seat, plan, event)),
        Err(refusal) => Err(refusal),
    }
}

/// Executes the step of a plan of the program, and enters it for a seat that goes on with the task:
/// the seat claims the task still. A refusal retains what is prepared.
pub fn enter_on(
    program: &Program,
    core: &mut Core,
    journal: &mut Journal,
    control: &mut Control,
    prepared: &mut Option<Prepared>,
    floor: &mut Floor,
    limit: u32,
    seat: u32,
    plan: Plan,
) -> Result<StepId, StepRefusal>
    requires fits { Fits program.now core.old.run }
    requires native { IsNative program.now core.old.run plan }
    requires limit { core.old.run.limit ≡ limit }
    requires shorter { length core.old.run.steps < length journal.old.items }
    requires room { HasRoom limit program.now core.old journal.old.items journal.old.room prepared.old }
    requires claimed { claim_of control.old.claims seat ≡ Some plan.config.task }
    ensures entered { EntersOn limit seat core.old.run plan core.new.run journal.old.items journal.new.items control.old control.new result }
    ensures kept { OnErr result (prepared.new ≡ prepared.old) }
    ensures serves { HasRoom limit program.now core.new journal.new.items journal.new.room prepared.new }
    ensures succeeds { HoldsStep prepared.old seat plan.config.task
        → IsOpen core.old.run plan → IsOk result }
    ensures carried { OnOk result (IsCarried (history core.new.run) floor.old floor.new) }
    ensures stays { OnErr result (floor.new ≡ floor.old) }
{
    let claim = control.claims.take(seat);
    let entered = enter_plan(
        program, core, journal, control, prepared, floor, limit, seat, plan,
    );
    control.claims.set(seat, claim);
    entered
}
