//! Reads a program text, line after line.

ghost use Rattle.std.specs.Prelude.{◌≡◌, ◌≢◌, ◌<◌, ◌≤◌, ◌++◌, ◌∷◌, [], ℕ, List, IfOk, IfErr, OnOk, Some, None, length, map, slice_get, IsTrue};
ghost use Rattle.std.specs.List.{list_all};
ghost use Rattle.tb_read.specs.Shown.{shown_line};
ghost use Rattle.tb_read.specs.Headings.{headings_from, heading_of};
ghost use Rattle.tb_read.specs.Context.{fault_behind, fault_of, taken, after};
ghost use Rattle.tb_read.specs.Text.{is_text};
ghost use Rattle.tb_read.specs.Meaning.{line_by, line_in, line_with, lines_in};
ghost use Rattle.tb_read.specs.Reading.{context_at, behind, line_fault, fault_at, IsFirstFault};
ghost use Rattle.tb_read.specs.declared.fault.FaultKind.TheVariants.{Memory};

use crate::context::Lines;
use crate::fault::{FaultKind, ReadFault};
use crate::head::{Head, head_of};
use crate::heading::Headings;
use crate::line::Line;
use crate::meaning::line_by;
use crate::text::split;
use std::alloc::Global;

/// Takes in a line with this first word, where it is without a fault.
fn read_headed(
    alloc: Global,
    before: &mut Lines,
    all: &mut Vec<Line>,
    line: usize,
    headings: &Headings<'_>,
    head: Head,
    words: &[&[u8]],
) -> Result<(), FaultKind>
    requires few { line ≤ 65536 }
    requires text { IsTrue (list_all is_text (map (λ word. word.now) words.now)) }
    ensures accepted { OnOk result (fault_behind (record { line = line; heading = heading_of headings.now }) before.old (Some head) (map (λ word. word.now) words.now) ≡ None) }
    ensures taken { OnOk result (before.new ≡ taken line before.old (Some head) (map (λ word. word.now) words.now)) }
    ensures line { OnOk result (map shown_line all.new.items ≡ map shown_line all.old.items ++ line_by (record { line = line; heading = heading_of headings.now }) before.old (Some head) (map (λ word. word.now) words.now) ∷ []) }
    ensures refused { IfErr result (λ kind. kind ≢ Memory → fault_behind (record { line = line; heading = heading_of headings.now }) before.old (Some head) (map (λ word. word.now) words.now) ≡ Some kind) }
{
    if let Some(kind) = before.fault(line, headings, head, words) {
        return Err(kind);
    }
    all.push(line_by(alloc, headings, before, head, words)?)?;
    before.accept(alloc, line as u32, head, words)?;
    Ok(())
}

/// Takes in a line of these words, where it is without a fault.
#[tactic(auto, using(crate::proofs::TextLemmas::rest_is_text))]
fn read_words(
    alloc: Global,
    before: &mut Lines,
    all: &mut Vec<Line>,
    line: usize,
    headings: &Headings<'_>,
    words: &[&[u8]],
) -> Result<(), FaultKind>
    requires few { line ≤ 65536 }
    requires text { IsTrue (list_all is_text (map (λ word. word.now) words.now)) }
    ensures accepted { OnOk result (fault_of (record { line = line; heading = heading_of headings.now }) before.old (map (λ word. word.now) words.now) ≡ None) }
    ensures taken { OnOk result (before.new ≡ after line before.old (map (λ word. word.now) words.now)) }
    ensures line { OnOk result (map shown_line all.new.items ≡ map shown_line all.old.items ++ line_in (record { line = line; heading = heading_of headings.now }) before.old (map (λ word. word.now) words.now) ∷ []) }
    ensures refused { IfErr result (λ kind. kind ≢ Memory → fault_of (record { line = line; heading = heading_of headings.now }) before.old (map (λ word. word.now) words.now) ≡ Some kind) }
{
    match words {
        [] => Ok(all.push(Line::Passed)?),
        [first, rest @ ..] => match head_of(first) {
            Some(head) => read_headed(alloc, before, all, line, headings, head, rest),
            None => Err(before.unknown_head()),
        },
    }
}

/// Takes a line in and adds what it is to those so far, where it is without a fault. `words` is
/// capacity for its words.
#[tactic(auto, using(crate::proofs::TextLemmas::words_text))]
fn read_line<'a>(
    alloc: Global,
    before: &mut Lines,
    all: &mut Vec<Line>,
    words: &mut Vec<&'a [u8]>,
    line: usize,
    headings: &Headings<'_>,
    text: &'a [u8],
) -> Result<(), FaultKind>
    ensures accepted { OnOk result (line_fault (record { line = line; heading = heading_of headings.now }) before.old (Some text.now) ≡ None) }
    ensures within { OnOk result (line ≤ 65536) }
    ensures taken { OnOk result (before.new ≡ behind line (Some text.now) before.old) }
    ensures line { OnOk result (map shown_line all.new.items ≡ map shown_line all.old.items ++ line_with (record { line = line; heading = heading_of headings.now }) before.old (Some text.now) ∷ []) }
    ensures refused { IfErr result (λ kind. kind ≢ Memory → line_fault (record { line = line; heading = heading_of headings.now }) before.old (Some text.now) ≡ Some kind) }
{
    if 1024 < text.len() || 65536 < line {
        return Err(FaultKind::TooLarge);
    }
    if !split(words, text)? {
        return Err(FaultKind::NotText);
    }
    read_words(alloc, before, all, line, headings, words)
}

fn item<T: Copy>(items: &[T], at: usize) -> T
    requires { at < length items.now }
    ensures { slice_get items.now at ≡ Some result }
{
    items[at]
}

/// All lines in a row: what they say, and what each is.
pub fn read_lines(
    alloc: Global,
    lines: &[&[u8]],
    headings: &Headings<'_>,
) -> Result<(Lines, Vec<Line>), ReadFault>
    requires { (name : List ℕ) → heading_of headings.now name ≡ heading_of (headings_from 0 (map (λ line. line.now) lines.now)) name }
    ensures told { IfOk result (λ r. r.0 ≡ context_at (map (λ line. line.now) lines.now) (length lines.now)) }
    ensures lines { IfOk result (λ r. map shown_line r.1.items ≡ lines_in (map (λ line. line.now) lines.now)) }
    ensures accepted { OnOk result ((n : ℕ) → n < length lines.now → fault_at (map (λ line. line.now) lines.now) n ≡ None) }
    ensures few { OnOk result (length lines.now ≤ 65537) }
    ensures refused { IfErr result (λ e. e.kind ≢ Memory → IsFirstFault (map (λ line. line.now) lines.now) e.line e.kind) }
    ensures within { IfErr result (λ e. e.line ≤ length lines.now) }
{
    let mut before = Lines::new(alloc);
    let mut all = Vec::new(alloc);
    let mut words = Vec::new(alloc);
    for at in 0..lines.len() {
        let text = item(lines, at);
        match read_line(alloc, &mut before, &mut all, &mut words, at, headings, text) {
            Ok(()) => {}
            Err(kind) => return Err(ReadFault {
                line: at as u32,
                kind,
            }),
        }
    }
    Ok((before, all))
}
