//! The line of the step that was executed last.

ghost use Rattle.std.specs.Prelude.{◌≡◌, ◌++◌, OnOk};
ghost use Rattle.tb_replies.specs.Texts.{newest_line};

use std::alloc::AllocError;
use tb_draft::Draft;
use tb_live::Live;
use tb_model::StepId;
use tb_view::append_line;

/// Appends the line of the newest step that is there, which this names.
#[inline(always)]
pub fn append_newest(text: &mut Draft, live: &Live, id: &StepId) -> Result<(), AllocError>
    ensures { OnOk result (text.new
        ≡ text.old ++ newest_line live.now.session id.now) }
{
    if let Some((task, action)) = live.newest() {
        append_line(text, live.program(), task, id.k, action)?;
    }
    Ok(())
}
