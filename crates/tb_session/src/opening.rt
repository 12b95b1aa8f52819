//! Reads the program of a session.

ghost use Rattle.std.specs.Prelude.{◌≡◌, ◌+◌, ◌-◌, ◌<◌, ◌≤◌, ◌^◌, [], length, IfOk, OnOk, IsErrOf};
ghost use Rattle.std.specs.Io.KnownBytes.{prepend_known};
ghost use Rattle.tb_lines.specs.Lines.{most_ahead};
ghost use Rattle.tb_live.specs.Session.{opened};
ghost use Rattle.tb_session.specs.Stages.{Gathered, Kept, Opens};

use crate::divider::is_divider;
use crate::halt::Halt;
use std::alloc::{AllocError, Global};
use std::sync::Wait;
use tb_lines::{LineEnd, LineFault, LineReader, Source};
use tb_live::Live;
use tb_read::{FaultKind, Program, read};
use tb_replies::BoxedRun;

/// Adds a line to the program text, but for the divider, and returns whether it is that. An empty
/// piece adds nothing.
fn keep(alloc: Global, text: &mut Vec<u8>, line: &[u8], end: LineEnd) -> Result<bool, AllocError>
    ensures { IfOk result (λ divides. Kept line.now end text.old.items text.new.items divides) }
{
    if is_divider(alloc, line)? {
        return Ok(true);
    }
    if end == LineEnd::Feed || !line.is_empty() {
        text.extend_from_slice(line)?;
        text.push(b'\n')?;
    }
    Ok(false)
}

/// Gathers the program text, and returns whether its divider or the end of what comes ended it.
pub fn gather<R: Wait, S: Source>(
    rt: &R,
    alloc: Global,
    reader: &mut LineReader,
    source: &mut S,
    text: &mut Vec<u8>,
) -> Result<LineEnd, LineFault>
    requires failures { S.failures source.old < 2 ^ 64 - 1 }
    requires empty { text.old.items ≡ [] }
    ensures gathered { Gathered (prepend_known reader.old (S.left source.old))
        (prepend_known reader.new (S.left source.new)) text.new.items result }
    ensures ok { OnOk result (S.failures source.new ≡ S.failures source.old) }
    ensures memory { IsErrOf result LineFault.Memory
        → S.failures source.new ≡ S.failures source.old }
    ensures read { IsErrOf result LineFault.Read
        → (S.failures source.new ≡ S.failures source.old + 1) × (reader.new ≡ []) }
    ensures ahead { length reader.new ≤ most_ahead }
{
    let mut line = Vec::new(alloc);
    'lines: for _ in rt.forever() {
        let end = match reader.next_line(rt, source, &mut line) {
            Ok(end) => end,
            Err(fault) => return Err(fault),
        };
        match keep(alloc, text, &line, end) {
            Ok(true) => return Ok(end),
            Ok(false) => {}
            Err(_) => return Err(LineFault::Memory),
        }
        match end {
            LineEnd::Feed => {}
            LineEnd::Input => return Ok(LineEnd::Input),
        }
    }
    unreachable!()
}

/// Opens a session of the program: a seat for the session itself, and one for each of 64 workers.
fn opened(alloc: Global, program: Program, limit: u32) -> Result<BoxedRun, AllocError>
    requires some { 1 ≤ limit }
    requires bound { limit ≤ 1000000 }
    ensures { IfOk result (λ run. run.session ≡ opened program limit 65) }
{
    let live = Live::open(alloc, program, limit, 65)?;
    let run = BoxedRun::new(alloc, live)?;
    Ok(run)
}

/// Reads the text, and opens a session of its program.
pub fn open(alloc: Global, text: &[u8], limit: u32) -> Result<BoxedRun, Halt>
    requires some { 1 ≤ limit }
    requires bound { limit ≤ 1000000 }
    ensures { Opens limit text.now result }
{
    match read(alloc, text) {
        Ok(program) => match opened(alloc, program, limit) {
            Ok(run) => Ok(run),
            Err(_) => Err(Halt::Memory),
        },
        Err(fault) if fault.kind == FaultKind::Memory => Err(Halt::Memory),
        Err(fault) => Err(Halt::Refused(fault)),
    }
}
