//! Applies an event, where it may follow.

ghost use Rattle.std.specs.Prelude.{◌≡◌, IfOk, IsTrue, OnErr};
ghost use Rattle.tb_plan.specs.Plans.{names_allowed};
ghost use Rattle.tb_verdict.specs.Judged.{AreOfRun, ForRun, IsSame, Takes};
ghost use Rattle.tb_verdict.specs.Memory.{IsLongRefusal, MayTake};
ghost use Rattle.tb_verdict.specs.Refusals.{refusal_of};

use crate::named::named;
use crate::refusal::Refusal;
use crate::run_state::RunState;
use crate::turn::out_of_turn;
use crate::unfit::unfit;
use crate::values::{reserve_value, set_value};
use std::alloc::AllocError;
use tb_model::Event;

/// Why the event may not follow the run of which this is stored: the first reason that holds. The
/// event is its task's next, or that with this ordinal. Memory is wanted at most for a name of more
/// than three ordinals.
pub fn refusal_for(
    state: &RunState,
    step: Option<u64>,
    event: &Event,
) -> Result<Option<Refusal>, AllocError>
    requires run { AreOfRun state.now }
    requires allowed { IsTrue (names_allowed state.now.cells event.now.action) }
    ensures ok { IfOk result (λ r. ForRun state.now (λ first H. refusal_of first H step event.now ≡ r)) }
    ensures memory { OnErr result (ForRun state.now (λ first H. IsLongRefusal (refusal_of first H step event.now))) }
{
    let task = &event.task;
    let tables = &state.tables;
    let Some(standing) = tables.standing(task) else {
        return Ok(Some(Refusal::NoSuchTask));
    };
    if tables.has_ended_at(&standing, task) {
        return Ok(Some(Refusal::Ended));
    }
    if let Some(refusal) = out_of_turn(step, standing.steps(), &event.action) {
        return Ok(Some(refusal));
    }
    if let Some(obstacle) = tables.in_the_way(&standing, task, &event.action) {
        return Ok(Some(named(task, obstacle)?));
    }
    unfit(state, task, &event.action)
}

/// Applies the event where it may follow, and else returns why not and changes nothing.
pub fn take(
    state: &mut RunState,
    step: Option<u64>,
    event: &Event,
) -> Result<Option<Refusal>, AllocError>
    requires run { AreOfRun state.old }
    requires allowed { IsTrue (names_allowed state.old.cells event.now.action) }
    ensures ok { IfOk result (Takes step event.now state.old state.new) }
    ensures err { OnErr result (IsSame state.old state.new) }
    ensures memory { OnErr result (ForRun state.old (λ first H. MayTake (refusal_of first H step event.now))) }
{
    if let Some(refusal) = refusal_for(state, step, event)? {
        return Ok(Some(refusal));
    }
    reserve_value(&mut state.values, &event.action)?;
    state.tables.apply_tasks(event, 0)?;
    set_value(&mut state.values, &event.action);
    Ok(None)
}
