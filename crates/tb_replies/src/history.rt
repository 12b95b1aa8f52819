//! The reply to `hist`, which goes out in pieces.

ghost use Rattle.std.specs.Prelude.{◌≡◌, ◌≤◌, ◌+◌, ◌++◌, ◌-◌, ◌<◌, ◌^◌, IfErr, IfOk, OnErr, OnOk, length};
ghost use Rattle.tb_steps.specs.Scans.{history_of};
ghost use Rattle.tb_view.specs.Steps.{history_lines};
ghost use Rattle.tb_view.specs.declared.view.View.TheVariants as view;
ghost use Rattle.tb_commands.specs.declared.command.Command.TheVariants as command;
ghost use Rattle.tb_replies.specs.Replies.{Reply};
ghost use Rattle.tb_replies.specs.Told.{Begins, failed_at};
ghost use Rattle.tb_draft.specs.Written.{Told, WroteFront};

use crate::unwritten::Unwritten;
use std::alloc::Global;
use tb_core::History;
use tb_draft::Draft;
use tb_lines::Sink;
use tb_live::Live;
use tb_read::Program;
use tb_view::{StepCounts, history_head};

/// Appends each step's line, and writes what waits where it is much.
fn tell_steps<K: Sink>(
    alloc: Global,
    sink: &mut K,
    text: &mut Draft,
    program: &Program,
    entries: &History<'_>,
) -> Result<(), Unwritten>
    requires few { length entries.now ≤ 1000000 }
    requires failures { K.failures sink.old < 2 ^ 64 - 1 }
    ensures told { OnOk result (Told (K.taken sink.old) (K.taken sink.new) text.new
        (λ told. told ≡ text.old ++ history_lines program.now (history_of entries.now))) }
    ensures err { OnErr result (WroteFront (K.taken sink.old) (K.taken sink.new)
        (text.old ++ history_lines program.now (history_of entries.now))) }
    ensures ok { OnOk result (K.failures sink.new ≡ K.failures sink.old) }
    ensures failed { IfErr result (λ why. K.failures sink.new ≡ K.failures sink.old + failed_at why) }
{
    let mut counts = StepCounts::none(alloc);
    'steps: for at in 0..entries.len() {
        counts.append_next(text, program, entries.task(at), entries.action(at))?;
        text.pass_on(sink)?;
    }
    Ok(())
}

/// How many steps are there, and the line of each, which takes no memory of the history's length.
/// What is handed out is the end of the reply, and still to be written.
pub fn history_reply<K: Sink>(alloc: Global, sink: &mut K, live: &Live) -> Result<Draft, Unwritten>
    requires failures { K.failures sink.old < 2 ^ 64 - 1 }
    ensures told { IfOk result (λ text. Told (K.taken sink.old) (K.taken sink.new) text
        (λ out. Reply live.now.session (command.Show view.Hist) out live.now.session)) }
    ensures err { OnErr result (Begins (Reply live.now.session (command.Show view.Hist))
        (K.taken sink.old) (K.taken sink.new)) }
    ensures ok { OnOk result (K.failures sink.new ≡ K.failures sink.old) }
    ensures failed { IfErr result (λ why. K.failures sink.new ≡ K.failures sink.old + failed_at why) }
{
    let entries = live.core().legal_entries();
    let mut text = history_head(alloc, &entries)?;
    tell_steps(alloc, sink, &mut text, live.program(), &entries)?;
    Ok(text)
}
