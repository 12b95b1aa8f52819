//! Gives up a run.

ghost use Rattle.std.specs.Prelude.{◌≡◌};

use crate::lost::Lost;
use tb_live::{Live, end};

/// Gives up a run that can't be given back, for this reason.
pub fn lose(live: Live, why: Lost) -> Lost
    ensures { result ≡ why }
{
    end(live);
    why
}
