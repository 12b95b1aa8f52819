//! A session: a program, the commands after it, and the replies.

ghost use Rattle.std.specs.Prelude.{◌≡◌, ◌+◌, ◌-◌, ◌<◌, ◌≤◌, ◌^◌, ◌↔◌, [], length, OnOk, IsErrOf};
ghost use Rattle.std.specs.Io.KnownBytes.{prepend_known};
ghost use Rattle.tb_lines.specs.Lines.{most_ahead};
ghost use Rattle.tb_session.specs.Answer.{Ran};
ghost use Rattle.tb_session.specs.Stages.{Begun};

use crate::halt::Halt;
use crate::opening::{gather, open};
use crate::serving::{leave, serve};
use std::alloc::Global;
use std::sync::Wait;
use std::thread::Threads;
use tb_commands::Workers;
use tb_lines::{LineEnd, LineFault, LineReader, Sink, Source};
use tb_options::Settings;
use tb_replies::BoxedRun;

/// Reads the program and opens its session, and returns what ended the program's text.
fn begin<R: Wait, S: Source>(
    rt: &R,
    alloc: Global,
    reader: &mut LineReader,
    source: &mut S,
    limit: u32,
) -> Result<(BoxedRun, LineEnd), Halt>
    requires failures { S.failures source.old < 2 ^ 64 - 1 }
    requires some { 1 ≤ limit }
    requires bound { limit ≤ 1000000 }
    ensures begun { Begun limit (prepend_known reader.old (S.left source.old))
        (prepend_known reader.new (S.left source.new)) result }
    ensures read { IsErrOf result Halt.Read ↔ (S.failures source.old < S.failures source.new) }
    ensures ok { OnOk result (S.failures source.new ≡ S.failures source.old) }
    ensures emptied { IsErrOf result Halt.Read → reader.new ≡ [] }
    ensures ahead { length reader.new ≤ most_ahead }
{
    let mut text = Vec::new(alloc);
    let end = match gather(rt, alloc, reader, source, &mut text) {
        Ok(end) => end,
        Err(LineFault::Read) => return Err(Halt::Read),
        Err(LineFault::Memory) => return Err(Halt::Memory),
    };
    match open(alloc, &text, limit) {
        Ok(live) => Ok((live, end)),
        Err(halt) => Err(halt),
    }
}

/// Reads a program and its commands, and writes the reply to each before the next is read. What the session holds at
/// its end isn't given back: the process is to end with it.
pub fn run<R: Threads + Wait + Sync, S: Source, K: Sink>(
    rt: &R,
    alloc: Global,
    source: &mut S,
    sink: &mut K,
    settings: Settings,
) -> Result<(), Halt>
    requires source { S.failures source.old < 2 ^ 64 - 1 }
    requires sink { K.failures sink.old < 2 ^ 64 - 1 }
    ensures ran { Ran settings.workers settings.limit (S.left source.old) (S.left source.new)
        (K.taken sink.old) (K.taken sink.new) result }
    ensures read { IsErrOf result Halt.Read ↔ (S.failures source.old < S.failures source.new) }
    ensures write { IsErrOf result Halt.Write ↔ (K.failures sink.old < K.failures sink.new) }
{
    let mut reader = LineReader::new();
    let (live, line_end) = match begin(rt, alloc, &mut reader, source, settings.limit) {
        Ok(begun) => begun,
        Err(halt) => return Err(halt),
    };
    match line_end {
        LineEnd::Feed => {
            let workers = Workers::new(settings.workers);
            serve(rt, alloc, workers, live, &mut reader, source, sink)
        }
        LineEnd::Input => {
            leave(live);
            Ok(())
        }
    }
}
