//! Judges a run text, and writes the report.

ghost use Rattle.std.specs.Prelude.{◌≡◌, ◌-◌, ◌<◌, ◌^◌, ◌↔◌, IsErrOf};
ghost use Rattle.tb_taskcheck.specs.Told.{Judged};

use crate::halt::Halt;
use crate::outcome::Outcome;
use crate::reading::read_text;
use crate::report::report;
use std::alloc::Global;
use std::mem::forget;
use std::sync::Wait;
use tb_lines::{LineFault, Sink, Source};

/// Reads a run text, judges it, and writes the report, and returns what the report says. A text with
/// a fault has none. What the judgement holds at its end isn't given back: the process is to end with
/// it.
pub fn judge<R: Wait, S: Source, K: Sink>(
    rt: &R,
    alloc: Global,
    source: &mut S,
    sink: &mut K,
) -> Result<Outcome, Halt>
    requires source { S.failures source.old < 2 ^ 64 - 1 }
    requires sink { K.failures sink.old < 2 ^ 64 - 1 }
    ensures judged { Judged (S.left source.old) (S.left source.new)
        (K.taken sink.old) (K.taken sink.new) result }
    ensures read { IsErrOf result Halt.Read ↔ (S.failures source.old < S.failures source.new) }
    ensures write { IsErrOf result Halt.Write ↔ (K.failures sink.old < K.failures sink.new) }
{
    let (verdict, found) = match read_text(rt, alloc, source) {
        Ok(taken) => taken,
        Err(LineFault::Read) => return Err(Halt::Read),
        Err(LineFault::Memory) => return Err(Halt::Memory),
    };
    let told = report(alloc, &verdict, found);
    forget(verdict);
    let (text, outcome) = match told {
        Ok(told) => told,
        Err(halt) => return Err(halt),
    };
    match text.write(sink) {
        Ok(()) => Ok(outcome),
        Err(_) => Err(Halt::Write),
    }
}
