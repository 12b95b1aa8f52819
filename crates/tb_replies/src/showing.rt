//! The reply to a view: the view, or why it isn't shown.

ghost use Rattle.std.specs.Prelude.{◌≡◌, IfOk};
ghost use Rattle.tb_replies.specs.Replies.{shown};

use crate::refusing::refused;
use std::alloc::{AllocError, Global};
use tb_draft::Draft;
use tb_live::Live;
use tb_view::{View, ViewRefusal, draft};

/// What the view shows, or why it isn't shown.
pub fn view_reply(alloc: Global, live: &Live, view: &View) -> Result<Draft, AllocError>
    ensures { IfOk result (λ text. text ≡ shown live.now.session view.now) }
{
    match draft(alloc, live, view) {
        Ok(text) => Ok(text),
        Err(ViewRefusal::NoSuchTask) => Ok(refused(alloc, 1, "NoSuchTask")?),
        Err(ViewRefusal::NoSuchStep) => Ok(refused(alloc, 1, "NoSuchStep")?),
        Err(ViewRefusal::Memory) => Err(AllocError),
    }
}
