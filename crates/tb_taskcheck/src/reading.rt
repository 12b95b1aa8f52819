//! Reads a run text as far as its judgement goes.

ghost use Rattle.std.specs.Prelude.{◌≡◌, ◌+◌, ◌++◌, ◌-◌, ◌<◌, ◌^◌, IsErrOf, List, OnOk, ℕ};
ghost use Rattle.tb_taskcheck.specs.Races.{FoundAt};
ghost use Rattle.tb_taskcheck.specs.Told.{Taken, is_last, is_line, line_at};
ghost use Rattle.tb_verdict.specs.Whole.{IsJudged, has_ended};

use crate::found::Found;
use std::alloc::{AllocError, Global};
use std::mem::forget;
use std::sync::Wait;
use tb_lines::{LineFault, LineReader, LineStop, Source};
use tb_verdict::{TextJudge, Verdict};

/// The most bytes of a line that are read; a line with more of them is faulty, whatever they are.
const LONGEST: usize = 65_535;

/// Whether the piece is a line: an empty one after the last line feed is none.
fn is_line(stop: LineStop, line: &[u8]) -> bool
    ensures { result ≡ is_line stop line.now }
{
    match (stop, line) {
        (LineStop::Input, []) => false,
        _ => true,
    }
}

/// Judges a line, if the piece is one, and finds with what its event races.
fn take_line(
    alloc: Global,
    judge: &mut TextJudge,
    found: &mut Found,
    line: &[u8],
    stop: LineStop,
) -> Result<(), AllocError>
    requires { (lines : List (List ℕ)) × IsJudged judge.old lines }
    ensures judged { OnOk result ((lines : List (List ℕ)) → IsJudged judge.old lines →
        IsJudged judge.new (lines ++ line_at stop line.now)) }
    ensures found { OnOk result ((lines : List (List ℕ)) → IsJudged judge.old lines →
        FoundAt lines found.old → FoundAt (lines ++ line_at stop line.now) found.new) }
{
    if !is_line(stop, line) {
        return Ok(());
    }
    let event = judge.take_line(alloc, line)?;
    found.add_event(&event)
}

/// Whether no line is read after it: the judgement has ended, or no line comes.
fn is_last(judge: &TextJudge, stop: LineStop) -> bool
    ensures { result ≡ is_last (has_ended judge.now) stop }
{
    match stop {
        LineStop::Feed => judge.has_ended(),
        LineStop::Input | LineStop::Long => true,
    }
}

/// Reads a text and judges it, up to its end or to that of its judgement, and finds its races.
/// Memory goes by the tasks, the cells and the races of the text, and not by its events or by the
/// length of a line. Where it fails, what the judgement holds isn't given back.
pub fn read_text<R: Wait, S: Source>(
    rt: &R,
    alloc: Global,
    source: &mut S,
) -> Result<(Verdict, Found), LineFault>
    requires { S.failures source.old < 2 ^ 64 - 1 }
    ensures taken { Taken (S.left source.old) (S.left source.new) result }
    ensures ok { OnOk result (S.failures source.new ≡ S.failures source.old) }
    ensures memory { IsErrOf result LineFault.Memory
        → S.failures source.new ≡ S.failures source.old }
    ensures read { IsErrOf result LineFault.Read
        → S.failures source.new ≡ S.failures source.old + 1 }
{
    let mut reader = LineReader::new();
    let mut judge = TextJudge::new(alloc);
    let mut found = match Found::new(alloc) {
        Ok(found) => found,
        Err(_) => return Err(LineFault::Memory),
    };
    let mut line = Vec::new(alloc);
    'lines: for _ in rt.forever() {
        let stop = match reader.next_line_within(rt, source, &mut line, LONGEST) {
            Ok(stop) => stop,
            Err(fault) => {
                forget(judge);
                forget(found);
                return Err(fault);
            }
        };
        if take_line(alloc, &mut judge, &mut found, &line, stop).is_err() {
            forget(judge);
            forget(found);
            return Err(LineFault::Memory);
        }
        if is_last(&judge, stop) {
            return Ok((judge.verdict(), found));
        }
    }
    unreachable!()
}
