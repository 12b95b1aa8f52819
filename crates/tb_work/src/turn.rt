//! What a worker does after a claim.

ghost use Rattle.std.specs.Prelude.{◌≡◌};
ghost use Rattle.tb_work.specs.Going;

use crate::ended::Ended;
use crate::refused::Refused;
use tb_live::{CommitRefusal, StepRefusal};

/// How a worker goes on.
#[derive(Clone, Copy, Drop, PartialEq, Eq)]
pub enum Turn {
    /// The worker claims again.
    On,
    /// The worker lets others go first, and claims again.
    Later,
    /// The worker ends.
    Over { ended: Ended },
}

/// How a worker goes on whose commit was refused: a refusal that another claim may get past isn't the
/// end.
pub fn turn_behind(refusal: &Refused<CommitRefusal>) -> Turn
    ensures { result ≡ Going.turn_behind refusal.now }
{
    let ended = match refusal {
        Refused::CellTaken => Ended::CellTaken,
        Refused::Run { refusal } => match refusal {
            CommitRefusal::Paused => Ended::Well,
            CommitRefusal::Withdrawn => return Turn::On,
            CommitRefusal::Step { refusal } => match refusal {
                StepRefusal::Full => Ended::Well,
                StepRefusal::Memory => Ended::Memory,
                _ => return Turn::On,
            },
        },
    };
    Turn::Over { ended }
}
