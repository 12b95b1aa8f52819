//! Steps of several workers.

ghost use Rattle.std.specs.Prelude.{◌≡◌, ◌<◌, ◌≤◌, IfOk, length};
ghost use Rattle.tb_live.specs.Session.{history};
ghost use Rattle.tb_view.specs.Steps.{newest_lines};
ghost use Rattle.tb_replies.specs.Course.{course_text};
ghost use Rattle.tb_replies.specs.Replies.{GoReply};
ghost use Rattle.tb_team.specs.Gone.{HasSeats};

use crate::boxed_run::BoxedRun;
use crate::running::{Taken, append_end};
use std::alloc::{AllocError, Global};
use std::sync::Wait;
use std::thread::Threads;
use tb_draft::Draft;
use tb_live::{Live, end};
use tb_team::{Gone, Lost, Stop, go_several};
use tb_view::append_newest;

/// The lines of so many of the newest steps, and the last line of a run.
fn course_text(alloc: Global, live: &Live, count: u32, stop: Stop) -> Result<Draft, AllocError>
    requires { count ≤ length (history live.now.session) }
    ensures { IfOk result (λ text. text
        ≡ course_text (record { lines = newest_lines live.now.session.program count (history live.now.session); count = count; stop = stop; session = live.now.session })) }
{
    let mut text = Draft::new(alloc);
    let entries = live.core().legal_entries();
    append_newest(alloc, &mut text, live.program(), &entries, count as usize)?;
    append_end(&mut text, Taken { count, stop })?;
    Ok(text)
}

/// Lets several workers go on for up to so many steps, and writes them. They stop at a breakpoint.
fn reply_off_heap<R: Threads + Wait + Sync>(
    rt: &R,
    alloc: Global,
    live: Live,
    workers: u32,
    most: u32,
) -> Result<(Live, Draft), Lost>
    requires seats { HasSeats live.session }
    requires several { 1 < workers }
    requires few { workers ≤ 64 }
    ensures { IfOk result (λ r. GoReply workers most live.session r.1 r.0.session) }
{
    let Gone { live, count, stop } = go_several(rt, alloc, live, workers, most)?;
    match course_text(alloc, &live, count, stop) {
        Ok(text) => Ok((live, text)),
        Err(_) => {
            end(live);
            Err(Lost::Memory)
        }
    }
}

/// Lets several workers go on for up to so many steps, and reports these. They take the run off the
/// heap, and stop at a breakpoint.
// out of line: no other line pays for its stack frame
#[inline(never)]
pub fn team_reply<R: Threads + Wait + Sync>(
    rt: &R,
    alloc: Global,
    live: BoxedRun,
    workers: u32,
    most: u32,
) -> Result<(BoxedRun, Draft), Lost>
    requires seats { HasSeats live.session }
    requires several { 1 < workers }
    requires few { workers ≤ 64 }
    ensures { IfOk result (λ r. GoReply workers most live.session r.1 r.0.session) }
{
    let (live, text) = reply_off_heap(rt, alloc, live.into_inner(), workers, most)?;
    match BoxedRun::new(alloc, live) {
        Ok(live) => Ok((live, text)),
        Err(_) => Err(Lost::Memory),
    }
}
