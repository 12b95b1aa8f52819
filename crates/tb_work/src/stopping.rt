//! Why a run executes no more steps.

ghost use Rattle.std.specs.Prelude.{◌≡◌, ◌↔◌, IsTrue};
ghost use Rattle.tb_work.specs.Going.{AreOver, IsWhy, paused_for};

use crate::why::Why;
use tb_live::{Live, Mode, PausedBy};

/// What paused a run of this mode, where no call of `pause` did.
fn paused_for(mode: Mode) -> Option<Why>
    ensures { result ≡ paused_for mode }
{
    match mode {
        Mode::Paused { by } => match by {
            PausedBy::Break { .. } => Some(Why::Break),
            PausedBy::Count => Some(Why::Limit),
            _ => None,
        },
        _ => None,
    }
}

/// Whether all tasks are over.
fn are_over(live: &Live) -> bool
    ensures { IsTrue result ↔ AreOver live.now.session }
{
    live.core().next_unended(None).is_none()
}

/// Why no step is executed now: the first that holds.
pub fn why_of(live: &Live) -> Why
    ensures { IsWhy live.now.session result }
{
    if let Some(why) = paused_for(live.mode()) {
        return why;
    }
    if are_over(live) {
        return Why::Done;
    }
    if live.is_full() {
        Why::Full
    } else {
        Why::Asked
    }
}
