//! A run on the heap.

ghost use Rattle.std.specs.Prelude.{◌≡◌, IfOk};

use std::alloc::{AllocError, Global};
use std::marker::Model;
use tb_live::{Live, end};

/// A run on the heap. It takes one word, so a line of a session hands it on without a copy of all that it has.
pub struct BoxedRun {
    pub(crate) live: Box<Live>,
}

impl Model for BoxedRun {
    ghost use Rattle.std.specs.Box.{box_value};
    ghost use Rattle.tb_live.specs.Session.{Held};

    ghost Value = { Held };

    ghost view = { λ r. box_value r.live };
}

impl BoxedRun {
    /// Puts the run on the heap. Where that is refused the run ends.
    pub fn new(alloc: Global, live: Live) -> Result<BoxedRun, AllocError>
        ensures { IfOk result (λ r. r ≡ live) }
    {
        match Box::new(alloc, live) {
            Ok(live) => Ok(BoxedRun { live }),
            Err(refused) => {
                end(refused.value);
                Err(AllocError)
            }
        }
    }

    /// Ends the run, and gives back its memory.
    // out of line: a line that is answered doesn't pay for its stack frame
    #[inline(never)]
    pub(crate) fn end(self) {
        end(self.into_inner());
    }

    /// The run, off the heap.
    pub fn into_inner(self) -> Live
        ensures { result ≡ self }
    {
        let BoxedRun { live } = self;
        Box::into_inner(live)
    }
}
