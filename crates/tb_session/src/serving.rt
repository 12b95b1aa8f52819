//! Works on the commands of a session.

ghost use Rattle.std.specs.Prelude.{◌≡◌, ◌+◌, ◌-◌, ◌<◌, ◌≤◌, ◌^◌, ◌↔◌, [], length, IfOk, OnOk, IsErrOf};
ghost use Rattle.std.specs.Io.KnownBytes.{prepend_known};
ghost use Rattle.tb_lines.specs.Lines.{most_ahead};
ghost use Rattle.tb_session.specs.Stages.{Answered, Served};
ghost use Rattle.tb_team.specs.Gone.{HasSeats};

use crate::halt::Halt;
use std::alloc::Global;
use std::mem;
use std::sync::Wait;
use std::thread::Threads;
use tb_commands::Workers;
use tb_lines::{LineEnd, LineFault, LineReader, Sink, Source};
use tb_replies::{BoxedRun, Unanswered, answer};

/// Leaves a run whose session ends. The process ends with it and gives all of its memory back at once, so the
/// run isn't taken apart, for which each of its steps would be read once more.
pub(crate) fn leave(live: BoxedRun) {
    mem::forget(live.into_inner());
}

/// Works on a line, and writes its reply.
pub fn answer_line<R: Threads + Wait + Sync, K: Sink>(
    rt: &R,
    alloc: Global,
    limit: Workers,
    live: BoxedRun,
    sink: &mut K,
    line: &[u8],
) -> Result<BoxedRun, Halt>
    requires seats { HasSeats live.session }
    requires failures { K.failures sink.old < 2 ^ 64 - 1 }
    ensures answered { Answered limit live.session line.now
        (K.taken sink.old) (K.taken sink.new) result }
    ensures write { IsErrOf result Halt.Write → K.failures sink.new ≡ K.failures sink.old + 1 }
    ensures memory { IsErrOf result Halt.Memory → K.failures sink.new ≡ K.failures sink.old }
    ensures journal { IsErrOf result Halt.Journal → K.failures sink.new ≡ K.failures sink.old }
    ensures ok { OnOk result (K.failures sink.new ≡ K.failures sink.old) }
{
    let (live, rest) = match answer(rt, alloc, limit, sink, live, line) {
        Ok(answered) => answered,
        Err(Unanswered::Memory) => return Err(Halt::Memory),
        Err(Unanswered::Write) => return Err(Halt::Write),
        Err(Unanswered::Journal) => return Err(Halt::Journal),
    };
    match rest.write(sink) {
        Ok(()) => Ok(live),
        Err(_) => {
            leave(live);
            Err(Halt::Write)
        }
    }
}

/// Works on each line that comes, and writes its reply before the next is read.
pub fn serve<R: Threads + Wait + Sync, S: Source, K: Sink>(
    rt: &R,
    alloc: Global,
    limit: Workers,
    live: BoxedRun,
    reader: &mut LineReader,
    source: &mut S,
    sink: &mut K,
) -> Result<(), Halt>
    requires seats { HasSeats live.session }
    requires source { S.failures source.old < 2 ^ 64 - 1 }
    requires sink { K.failures sink.old < 2 ^ 64 - 1 }
    ensures served { Served limit live.session (prepend_known reader.old (S.left source.old))
        (prepend_known reader.new (S.left source.new))
        (K.taken sink.old) (K.taken sink.new) result }
    ensures read { IsErrOf result Halt.Read ↔ (S.failures source.old < S.failures source.new) }
    ensures write { IsErrOf result Halt.Write ↔ (K.failures sink.old < K.failures sink.new) }
    ensures emptied { IsErrOf result Halt.Read → reader.new ≡ [] }
    ensures ahead { length reader.new ≤ most_ahead }
{
    let mut line = Vec::new(alloc);
    let mut live = live;
    'lines: for _ in rt.forever() {
        let line_end = match reader.next_line(rt, source, &mut line) {
            Ok(line_end) => line_end,
            Err(LineFault::Read) => {
                leave(live);
                return Err(Halt::Read);
            }
            Err(LineFault::Memory) => {
                leave(live);
                return Err(Halt::Memory);
            }
        };
        live = match answer_line(rt, alloc, limit, live, sink, &line) {
            Ok(live) => live,
            Err(halt) => return Err(halt),
        };
        match line_end {
            LineEnd::Feed => {}
            LineEnd::Input => {
                leave(live);
                return Ok(());
            }
        }
    }
    unreachable!()
}
