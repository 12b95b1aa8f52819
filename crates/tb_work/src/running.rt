//! What each run retains.

ghost use Rattle.tb_work.specs.Answering.{IsRun};

use tb_live::Live;

/// What each run retains, for a caller to cite.
pub fn run_is_sound(live: &Live)
    ensures { IsRun live.now.session }
{
    live.journal_is_sound();
    // for the proof: what the run retains of its claims
    let _claim = live.claim_of(0);
}
