//! Claims and pauses of a run, and what they leave of it.

ghost use Rattle.std.specs.Prelude.{◌≡◌, ◌<◌, IfOk, OnErr, None, length};
ghost use Rattle.tb_control.specs.declared.mode.Mode.TheVariants.{Resumed};
ghost use Rattle.tb_live.specs.Modes as modes;
ghost use Rattle.tb_live.specs.Pauses.{with_mode};
ghost use Rattle.tb_live.specs.Session.{with_seat};
ghost use Rattle.tb_live.specs.Working.{ClaimsTask, ClaimsWork, IsOffered};
ghost use Rattle.tb_work.specs.Claiming.{IsClaim, IsOffer, IsWorkFor, Keeps};

use std::alloc::AllocError;
use tb_live::{Claim, ClaimRefusal, Live, Offer, Work};
use tb_model::TaskName;

/// The least task that can step, where no other seat claims it.
pub fn claim_work(live: &mut Live, seat: u32) -> Result<Claim, AllocError>
    requires { seat < length live.old.session.control.claims }
    ensures kept { Keeps live.old.session live.new.session }
    ensures work { IfOk result (IsClaim live.old.session.program) }
    ensures claimed { IfOk result (ClaimsWork live.old.session seat live.new.session) }
    ensures err { OnErr result (live.new.session ≡ live.old.session) }
{
    live.claim(seat)
}

/// The least task that can step, where no other seat claims it, with its statement and not the private ones around it.
pub fn claim_offer(live: &mut Live, seat: u32) -> Result<Offer, AllocError>
    requires { seat < length live.old.session.control.claims }
    ensures kept { Keeps live.old.session live.new.session }
    ensures task { IfOk result (IsOffer live.old.session.program) }
    ensures offered { IfOk result (IsOffered live.old.session seat live.new.session) }
    ensures err { OnErr result (live.new.session ≡ live.old.session) }
{
    live.offer(seat)
}

/// A task, where no other seat claims it.
pub fn claim_one(live: &mut Live, seat: u32, task: &TaskName) -> Result<Work, ClaimRefusal>
    requires { seat < length live.old.session.control.claims }
    ensures kept { Keeps live.old.session live.new.session }
    ensures work { IfOk result (IsWorkFor live.old.session.program task.now) }
    ensures claimed { ClaimsTask live.old.session seat task.now live.new.session result }
{
    live.claim_task(seat, task)
}

/// Ends the seat's claim.
pub fn leave(live: &mut Live, seat: u32)
    requires { seat < length live.old.session.control.claims }
    ensures kept { Keeps live.old.session live.new.session }
    ensures left { live.new.session ≡ with_seat live.old.session seat None }
{
    live.let_go(seat);
}

/// Pauses the run.
pub fn pause(live: &mut Live)
    ensures kept { Keeps live.old.session live.new.session }
    ensures mode { live.new.session ≡ with_mode live.old.session (modes.paused live.old.session.control.mode) }
{
    live.pause();
}

/// Lets the run go on.
pub fn resume(live: &mut Live)
    ensures kept { Keeps live.old.session live.new.session }
    ensures mode { live.new.session ≡ with_mode live.old.session Resumed }
{
    live.resume();
}

/// Lets the run go on for so many steps.
pub fn resume_for(live: &mut Live, steps: u32)
    ensures kept { Keeps live.old.session live.new.session }
    ensures mode { live.new.session ≡ with_mode live.old.session (modes.counting steps) }
{
    live.resume_for(steps);
}
