//! Reads a line of a run text.

ghost use Rattle.std.specs.Prelude.{◌≡◌, [], Err, IfErr, IfOk, IsTrue, Ok, length, nat_lt};
ghost use Rattle.tb_runs.specs.Memory.{event_takes, line_takes, words_take};
ghost use Rattle.tb_runs.specs.Reading.{ended};
ghost use Rattle.tb_runs.specs.Lines.{begun_in, cell_said, cells_said, count_in, event_said, fresh_in, headed_in, hist_said, line_said, longest, said_in};
ghost use Rattle.tb_runs.specs.declared.fault.Fault.{Fault as TheFault};
ghost use Rattle.tb_runs.specs.declared.fault.Unread.TheVariants.{Faulty, Memory};
ghost use Rattle.tb_runs.specs.declared.said.Stage.TheVariants.{Cells, Events};

use crate::action::take_action;
use crate::fault::{Fault, Unread};
use crate::said::{Said, Stage};
use crate::taking::{take_cell, take_end, take_id, take_if, take_number};
use crate::text::is_text_line;
use crate::words::Words;
use indexmap::IndexMap;
use std::alloc::Global;
use tb_model::Event;

/// The most bytes of a line, without its line feed.
const LONGEST: usize = 65_535;

/// The most cells.
const MOST_CELLS: i64 = 134_217_728;

/// A count of cells.
fn take_count(words: &mut Words<'_>) -> Result<u32, Fault>
    ensures ok { IfOk result (λ n. count_in words.old ≡ Ok (n, words.new)) }
    ensures err { IfErr result (λ fault. count_in words.old ≡ Err fault) }
{
    let n = take_number(words)?;
    if n < 0 {
        return Err(Fault::BadNumber);
    }
    if n > MOST_CELLS {
        return Err(Fault::TooLarge);
    }
    Ok(n as u32)
}

/// What the first line with words says.
fn take_begun(words: &mut Words<'_>) -> Result<Said, Fault>
    ensures ok { IfOk result (λ said. begun_in words.old ≡ Ok (said, words.new)) }
    ensures err { IfErr result (λ fault. begun_in words.old ≡ Err fault) }
{
    if !take_if(words, b"cells") {
        return Err(Fault::NoCells);
    }
    let count = take_count(words)?;
    Ok(Said::Cells { count })
}

/// A cell that has no first value yet.
fn take_fresh(words: &mut Words<'_>, firsts: &IndexMap<u32, i64>, cells: u32) -> Result<u32, Fault>
    ensures ok { IfOk result (λ c. fresh_in firsts.now.entries cells words.old ≡ Ok (c, words.new)) }
    ensures err { IfErr result (λ fault. fresh_in firsts.now.entries cells words.old ≡ Err fault) }
{
    let cell = take_cell(words, cells)?;
    if firsts.contains_key(&cell) {
        return Err(Fault::Duplicate);
    }
    Ok(cell)
}

/// What comes after `cell`.
fn take_first(words: &mut Words<'_>, firsts: &IndexMap<u32, i64>, cells: u32) -> Result<Said, Fault>
    ensures ok { IfOk result (λ said. cell_said firsts.now.entries cells words.old ≡ Ok (said, words.new)) }
    ensures err { IfErr result (λ fault. cell_said firsts.now.entries cells words.old ≡ Err fault) }
{
    let cell = take_fresh(words, firsts, cells)?;
    let value = take_number(words)?;
    Ok(Said::Cell { cell, value })
}

/// What comes after `hist`.
fn take_hist(words: &mut Words<'_>) -> Result<Said, Fault>
    ensures ok { IfOk result (λ said. hist_said words.old ≡ Ok (said, words.new)) }
    ensures err { IfErr result (λ fault. hist_said words.old ≡ Err fault) }
{
    let n = take_number(words)?;
    if n < 0 {
        return Err(Fault::BadNumber);
    }
    Ok(Said::Hist)
}

/// An event.
fn take_event(alloc: Global, words: &mut Words<'_>, cells: u32) -> Result<Said, Unread>
    ensures ok { IfOk result (λ said. event_said cells words.old ≡ Ok (said, words.new)) }
    ensures err { (fault : TheFault) → result ≡ Err (Faulty fault) → event_said cells words.old ≡ Err fault }
    ensures memory { result ≡ Err Memory → IsTrue (event_takes words.old) }
{
    let id = take_id(alloc, words)?;
    let action = take_action(alloc, words, cells)?;
    Ok(Said::Event {
        step: id.step,
        event: Event {
            task: id.task,
            action,
        },
    })
}

/// What a line in front of the events says, or the first of these.
fn take_headed(
    alloc: Global,
    words: &mut Words<'_>,
    firsts: &IndexMap<u32, i64>,
    cells: u32,
) -> Result<Said, Unread>
    ensures ok { IfOk result (λ said. headed_in firsts.now.entries cells words.old ≡ Ok (said, words.new)) }
    ensures err { (fault : TheFault) → result ≡ Err (Faulty fault) → headed_in firsts.now.entries cells words.old ≡ Err fault }
    ensures memory { result ≡ Err Memory → IsTrue (words_take (Cells cells) words.old) }
{
    if take_if(words, b"cell") {
        return Ok(take_first(words, firsts, cells)?);
    }
    if take_if(words, b"hist") {
        return Ok(take_hist(words)?);
    }
    take_event(alloc, words, cells)
}

/// What the words of a line say.
fn take_said(
    alloc: Global,
    words: &mut Words<'_>,
    firsts: &IndexMap<u32, i64>,
    stage: Stage,
) -> Result<Said, Unread>
    ensures ok { IfOk result (λ said. said_in firsts.now.entries stage words.old ≡ Ok (said, words.new)) }
    ensures err { (fault : TheFault) → result ≡ Err (Faulty fault) → said_in firsts.now.entries stage words.old ≡ Err fault }
    ensures memory { result ≡ Err Memory → IsTrue (words_take stage words.old) }
{
    match stage {
        Stage::Begin => Ok(take_begun(words)?),
        Stage::Cells { count } => take_headed(alloc, words, firsts, count),
        Stage::Events { count } => take_event(alloc, words, count),
    }
}

/// What the words of a line say, where no other word may come.
fn take_all(
    alloc: Global,
    words: &mut Words<'_>,
    firsts: &IndexMap<u32, i64>,
    stage: Stage,
) -> Result<Said, Unread>
    ensures ok { IfOk result (λ said. ended (said_in firsts.now.entries stage words.old) ≡ Ok said) }
    ensures err { (fault : TheFault) → result ≡ Err (Faulty fault) → ended (said_in firsts.now.entries stage words.old) ≡ Err fault }
    ensures memory { result ≡ Err Memory → IsTrue (words_take stage words.old) }
{
    let said = take_said(alloc, words, firsts, stage)?;
    take_end(words)?;
    Ok(said)
}

/// An event, where no other word may come.
fn take_whole_event(alloc: Global, words: &mut Words<'_>, cells: u32) -> Result<Said, Unread>
    ensures ok { IfOk result (λ said. ended (event_said cells words.old) ≡ Ok said) }
    ensures err { (fault : TheFault) → result ≡ Err (Faulty fault) → ended (event_said cells words.old) ≡ Err fault }
    ensures memory { result ≡ Err Memory → IsTrue (event_takes words.old) }
{
    let said = take_event(alloc, words, cells)?;
    take_end(words)?;
    Ok(said)
}

/// Whether the line is too long.
fn is_long(line: &[u8]) -> bool
    ensures { result ≡ nat_lt longest (length line.now) }
{
    LONGEST < line.len()
}

/// What a line says, by the first values and the stage in front of it, and `None` where it has no
/// words.
pub fn read_line(
    alloc: Global,
    firsts: &IndexMap<u32, i64>,
    stage: Stage,
    line: &[u8],
) -> Result<Option<Said>, Unread>
    ensures ok { IfOk result (λ said. line_said firsts.now.entries stage line.now ≡ Ok said) }
    ensures err { (fault : TheFault) → result ≡ Err (Faulty fault) → line_said firsts.now.entries stage line.now ≡ Err fault }
    ensures memory { result ≡ Err Memory → IsTrue (line_takes stage line.now) }
{
    if is_long(line) {
        return Err(Unread::Faulty(Fault::TooLarge));
    }
    if !is_text_line(line) {
        return Err(Unread::Faulty(Fault::NotText));
    }
    let mut words = Words::of(line);
    if words.peek().is_none() {
        return Ok(None);
    }
    Ok(Some(take_all(alloc, &mut words, firsts, stage)?))
}

/// What a line says after the first event, where there are so many cells. It needs no first values.
/// A line that says an event is text, so whether it is, is only asked of the others.
#[tactic(auto, using(crate::proofs::SaidLemmas::event_read))]
pub fn read_event(alloc: Global, cells: u32, line: &[u8]) -> Result<Option<Said>, Unread>
    ensures ok { IfOk result (λ said. line_said [] (Events cells) line.now ≡ Ok said) }
    ensures err { (fault : TheFault) → result ≡ Err (Faulty fault)
        → line_said [] (Events cells) line.now ≡ Err fault }
    ensures memory { result ≡ Err Memory → IsTrue (line_takes (Events cells) line.now) }
{
    if is_long(line) {
        return Err(Unread::Faulty(Fault::TooLarge));
    }
    let mut words = Words::of(line);
    match take_whole_event(alloc, &mut words, cells) {
        Ok(said) => Ok(Some(said)),
        Err(unread) => {
            if !is_text_line(line) {
                return Err(Unread::Faulty(Fault::NotText));
            }
            let all = Words::of(line);
            if all.peek().is_none() {
                return Ok(None);
            }
            Err(unread)
        }
    }
}
