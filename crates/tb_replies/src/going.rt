//! Turns of a worker alone.

ghost use Rattle.std.specs.Prelude.{◌≡◌, ◌≢◌, ◌+◌, ◌-◌, ◌<◌, ◌^◌, IfErr, IfOk, OnErr, OnOk, None, Some, []};
ghost use Rattle.tb_replies.specs.Alone.{HasNoClaims, IsIdle, IsIdleStop, IsUnderWay, IsWhole, Stops, TakesTurn};
ghost use Rattle.tb_replies.specs.Replies.{GoReply};
ghost use Rattle.tb_replies.specs.Told.{Begins, failed_at};
ghost use Rattle.tb_draft.specs.Written.{Told};
ghost use Rattle.tb_team.specs.Turns.{stop_of};
ghost use Rattle.tb_team.specs.Gone.{HasSeats};

use crate::newest::append_newest;
use crate::running::{Taken, append_end};
use crate::unwritten::Unwritten;
use std::alloc::{AllocError, Global};
use tb_draft::Draft;
use tb_lines::Sink;
use tb_live::{Live, Mode, PausedBy, StepRefusal};
use tb_team::Stop;

/// Executes the next step of the least task that can step, as the worker's claim and its commit
/// would, and writes it. False where there is no such task, or the run is paused.
fn take_turn(text: &mut Draft, live: &mut Live) -> Result<bool, AllocError>
    requires free { HasNoClaims live.old.session }
    requires going { IsUnderWay live.old.session.control.mode }
    ensures { IfOk result (TakesTurn live.old.session text.old
        text.new live.new.session) }
{
    if live.mode().is_paused() {
        return Ok(false);
    }
    match live.step_least_for(1) {
        Ok(Some(id)) => {
            append_newest(text, live, &id)?;
            Ok(true)
        }
        Ok(None) => Ok(false),
        Err(StepRefusal::Full) => Ok(false),
        Err(StepRefusal::Memory) => Err(AllocError),
        _ => unreachable!(),
    }
}

/// Why no turn follows in a run that goes on. No step is executed: no task can step, or the journal
/// is full.
fn idle_stop(live: &mut Live) -> Result<Stop, AllocError>
    requires { IsIdle live.old.session }
    ensures { IfOk result (λ why. IsIdleStop live.old.session live.new.session why) }
{
    match live.step_least_for(1) {
        Ok(None) => Ok(Stop::Done),
        Err(StepRefusal::Full) => Ok(Stop::Full),
        Err(StepRefusal::Memory) => Err(AllocError),
        _ => unreachable!(),
    }
}

/// Why no turn follows.
fn stop(live: &mut Live) -> Result<Stop, AllocError>
    requires { stop_of live.old.session ≢ None }
    ensures { IfOk result (λ why. (stop_of live.old.session ≡ Some why)
        × (live.new.session ≡ live.old.session)) }
{
    match live.mode() {
        Mode::Paused {
            by: PausedBy::Break { .. },
        } => Ok(Stop::Break),
        Mode::Paused {
            by: PausedBy::Count,
        } => Ok(Stop::Limit),
        _ => idle_stop(live),
    }
}

/// Ends the turns, of which there were so many: gives up all claims, and lets the run go on.
fn settle(live: &mut Live, count: u32) -> Result<Taken, AllocError>
    requires { stop_of live.old.session ≢ None }
    ensures { IfOk result (Stops live.old.session count live.new.session) }
{
    let stop = stop(live)?;
    live.withdraw_all();
    live.resume();
    Ok(Taken { count, stop })
}

/// Executes up to so many turns, and writes each as soon as it is taken.
fn take_turns<K: Sink>(
    sink: &mut K,
    text: &mut Draft,
    live: &mut Live,
    most: u32,
) -> Result<Taken, Unwritten>
    requires seats { HasSeats live.old.session }
    requires empty { text.old ≡ [] }
    requires failures { K.failures sink.old < 2 ^ 64 - 1 }
    ensures told { IfOk result (λ taken. Told (K.taken sink.old) (K.taken sink.new) text.new
        (λ told. IsWhole most live.old.session told live.new.session taken)) }
    ensures err { OnErr result (Begins (GoReply 1 most live.old.session)
        (K.taken sink.old) (K.taken sink.new)) }
    ensures ok { OnOk result (K.failures sink.new ≡ K.failures sink.old) }
    ensures failed { IfErr result (λ why. K.failures sink.new ≡ K.failures sink.old + failed_at why) }
{
    live.withdraw_all();
    live.resume_for(most);
    let mut count = 0;
    'turns: while count < most {
        if !take_turn(text, live)? {
            return Ok(settle(live, count)?);
        }
        text.pass_on(sink)?;
        count += 1;
    }
    Ok(settle(live, count)?)
}

/// Lets one worker go on for up to so many steps, and writes them. It stops at a breakpoint. What
/// is handed out is the end of the reply, and still to be written.
pub fn go_reply<K: Sink>(
    alloc: Global,
    sink: &mut K,
    live: &mut Live,
    most: u32,
) -> Result<Draft, Unwritten>
    requires seats { HasSeats live.old.session }
    requires failures { K.failures sink.old < 2 ^ 64 - 1 }
    ensures told { IfOk result (λ text. Told (K.taken sink.old) (K.taken sink.new) text
        (λ out. GoReply 1 most live.old.session out live.new.session)) }
    ensures err { OnErr result (Begins (GoReply 1 most live.old.session)
        (K.taken sink.old) (K.taken sink.new)) }
    ensures ok { OnOk result (K.failures sink.new ≡ K.failures sink.old) }
    ensures failed { IfErr result (λ why. K.failures sink.new ≡ K.failures sink.old + failed_at why) }
{
    let mut text = Draft::new(alloc);
    let taken = take_turns(sink, &mut text, live, most)?;
    append_end(&mut text, taken)?;
    Ok(text)
}
