//! Workers execute steps of a run.

ghost use Rattle.std.specs.Prelude.{◌≡◌, ◌<◌, ◌≤◌, IfOk, IfErr, length};
ghost use Rattle.tb_team.specs.Gone.{HasSeats, IsGone};
ghost use Rattle.tb_team.specs.Looking.{IsLooked};
ghost use Rattle.tb_team.specs.Losing.{IsAstray, IsLost};

use crate::gone::Gone;
use crate::lending::lend;
use crate::looking::is_course;
use crate::losing::lose;
use crate::lost::Lost;
use crate::stopping::stop_after;
use std::alloc::Global;
use std::sync::Wait;
use std::thread::Threads;
use tb_live::Live;

/// What workers did that had a journal of so many entries, where it is a course of turns.
fn look(live: Live, workers: u32, most: u32, from: usize) -> Result<Gone, Lost>
    requires seats { HasSeats live.session }
    requires from { from ≤ length live.session.journal }
    ensures looked { IfOk result (IsLooked workers most from live.session) }
    ensures astray { IfErr result (IsAstray workers most from live.session) }
{
    let mut live = live;
    live.journal_is_sound();
    // for the proof: what the core retains of the history
    let _core = live.core();
    if !is_course(&live, workers, from) {
        return Err(lose(live, Lost::Course));
    }
    let count = (live.journal().len() - from) as u32;
    if most < count {
        return Err(lose(live, Lost::Many));
    }
    live.resume();
    match stop_after(&mut live, count, most) {
        Ok(stop) => {
            live.withdraw_all();
            Ok(Gone { live, count, stop })
        },
        Err(why) => Err(lose(live, why)),
    }
}

/// Lets so many workers execute up to so many steps in all. They stop at a breakpoint.
pub fn go_several<R: Threads + Wait + Sync>(
    rt: &R,
    alloc: Global,
    live: Live,
    workers: u32,
    most: u32,
) -> Result<Gone, Lost>
    requires seats { HasSeats live.session }
    requires several { 1 < workers }
    requires few { workers ≤ 64 }
    ensures gone { IfOk result (IsGone workers most live.session) }
    ensures lost { IfErr result (IsLost workers most live.session) }
{
    let mut live = live;
    let from = live.journal().len();
    // a claim that was left would block its task for all workers
    live.withdraw_all();
    let live = match lend(rt, alloc, live, workers, most) {
        Ok(live) => live,
        Err(why) => return Err(why),
    };
    live.journal_is_sound();
    look(live, workers, most, from)
}
