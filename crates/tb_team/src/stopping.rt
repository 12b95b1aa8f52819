//! Why workers execute no more steps.

ghost use Rattle.std.specs.Prelude.{◌≡◌, ◌≢◌, ◌&&◌, IfOk, IfErr, OnErr, IsTrue, IsFalse, None, Some, nat_lt, nat_eq};
ghost use Rattle.tb_live.specs.Modes.{is_paused};
ghost use Rattle.tb_live.specs.Moves.{least_task};
ghost use Rattle.tb_live.specs.Session.{history, is_full};
ghost use Rattle.tb_team.specs.Gone.{HasSeats};
ghost use Rattle.tb_team.specs.Looking.{KeepsButClaims, meets_newest, reason};
ghost use Rattle.tb_team.specs.Losing.{IsUnstopped};
ghost use Rattle.tb_team.specs.Turns.{why_idle};

use crate::looking::newest_is_met;
use crate::lost::Lost;
use crate::stop::Stop;
use std::alloc::AllocError;
use tb_live::{Claim, Live, StepRefusal};

/// Whether no task can step, where the journal has a slot.
fn is_done(live: &mut Live) -> Result<bool, AllocError>
    requires seats { HasSeats live.old.session }
    requires going { IsFalse (is_paused live.old.session.control.mode) }
    requires room { IsFalse (is_full live.old.session) }
    ensures done { IfOk result (λ done. IsTrue done → why_idle (least_task live.old.session) (is_full live.old.session) ≡ Some Stop.Done) }
    ensures going { IfOk result (λ done. IsFalse done → why_idle (least_task live.old.session) (is_full live.old.session) ≡ None) }
    ensures kept { KeepsButClaims live.old.session live.new.session }
{
    match live.claim(1)? {
        Claim::Done => Ok(true),
        _ => Ok(false),
    }
}

/// Why no step follows where the journal is full.
fn full_stop(live: &mut Live) -> Result<Stop, AllocError>
    requires { IsTrue (is_full live.old.session) }
    ensures why { IfOk result (λ why. why_idle (least_task live.old.session) (is_full live.old.session) ≡ Some why) }
    ensures err { OnErr result (least_task live.old.session ≢ None → IsFalse (is_full live.old.session)) }
    ensures kept { IfOk result (λ why. live.new.session ≡ live.old.session) }
{
    match live.step_least_for(1) {
        Ok(None) => Ok(Stop::Done),
        Err(StepRefusal::Full) => Ok(Stop::Full),
        Err(StepRefusal::Memory) => Err(AllocError),
        _ => unreachable!(),
    }
}

/// Why no step follows in a run that goes on.
fn idle_stop(live: &mut Live) -> Result<Option<Stop>, AllocError>
    requires seats { HasSeats live.old.session }
    requires going { IsFalse (is_paused live.old.session.control.mode) }
    ensures why { IfOk result (λ o. why_idle (least_task live.old.session) (is_full live.old.session) ≡ o) }
    ensures err { OnErr result (least_task live.old.session ≢ None → IsFalse (is_full live.old.session)) }
    ensures kept { IfOk result (λ o. KeepsButClaims live.old.session live.new.session) }
{
    if live.is_full() {
        let stop = full_stop(live)?;
        return Ok(Some(stop));
    }
    let done = is_done(live)?;
    if done { Ok(Some(Stop::Done)) } else { Ok(None) }
}

/// Why no step follows after so many of at most so many. Only claims change.
pub fn stop_after(live: &mut Live, count: u32, most: u32) -> Result<Stop, Lost>
    requires seats { HasSeats live.old.session }
    requires going { IsFalse (is_paused live.old.session.control.mode) }
    ensures why { IfOk result (λ why. reason
        (nat_lt 0 count && meets_newest live.old.session.program live.old.session.control.breakpoints.standing (history live.old.session))
        (nat_eq count most) live.old.session ≡ Some why) }
    ensures lost { IfErr result (IsUnstopped count most live.old.session) }
    ensures kept { IfOk result (λ why. KeepsButClaims live.old.session live.new.session) }
{
    if 0 < count && newest_is_met(live) {
        return Ok(Stop::Break);
    }
    if count == most {
        return Ok(Stop::Limit);
    }
    match idle_stop(live)? {
        Some(stop) => Ok(stop),
        None => Err(Lost::Unstopped),
    }
}
