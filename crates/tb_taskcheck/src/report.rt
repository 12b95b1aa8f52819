//! The report of a run text.

ghost use Rattle.std.specs.Prelude.{◌≡◌, ◌++◌, IfOk, List, OnOk, length, ℕ};
ghost use Rattle.tb_draft.specs.Races.{races_head};
ghost use Rattle.tb_model.specs.Legal.{Cells, Legal};
ghost use Rattle.tb_model.specs.Names.{Name};
ghost use Rattle.tb_taskcheck.specs.Races.{FoundIn, IsFound};
ghost use Rattle.tb_taskcheck.specs.Report.{IsLegalReport, head_text, outcome_of};
ghost use Rattle.tb_taskcheck.specs.Told.{Reported};
ghost use Rattle.tb_verdict.specs.Held.{IsBehind};
ghost use Rattle.tb_verdict.specs.Texts.{Sofar, history_in};
ghost use Rattle.tb_verdict.specs.Whole.{IsLegal, IsVerdict};

use crate::found::Found;
use crate::halt::Halt;
use crate::outcome::Outcome;
use crate::refused::refused_report;
use crate::unended::unended_names;
use std::alloc::{AllocError, Global};
use std::mem::forget;
use tb_draft::Draft;
use tb_verdict::{Judge, Verdict};

/// Puts the lines in front of the names: how many events there are, and unended tasks.
fn put_head(names: &mut Draft, alloc: Global, events: u32, unended: u32) -> Result<(), AllocError>
    ensures { OnOk result (names.new ≡ head_text events unended ++ names.old) }
{
    let mut head = Draft::new(alloc);
    head.push_str("legal ")?;
    head.push_number(events)?;
    head.push_str("\nunended ")?;
    head.push_number(unended)?;
    head.push_str("\n")?;
    names.prepend_draft(head)
}

/// Puts what is before the lines of the races, and how many these are.
fn put_front(lines: &mut Draft, mut front: Draft, races: u32) -> Result<(), AllocError>
    ensures { OnOk result (lines.new ≡ front ++ races_head races ++ lines.old) }
{
    front.push_str("races ")?;
    front.push_number(races)?;
    front.push_str("\n")?;
    lines.prepend_draft(front)
}

/// What the report says of a legal run.
fn outcome(is_unordered: bool, unended: u32) -> Outcome
    ensures { (names : List Name) → unended ≡ length names → result ≡ outcome_of is_unordered names }
{
    match (is_unordered, unended) {
        (true, _) => Outcome::Racing,
        (false, 0) => Outcome::Over,
        (false, _) => Outcome::Unended,
    }
}

/// The report of a legal run of so many events, which the judge has taken, with these races. What
/// is stored to find more isn't given back.
fn legal_report(
    alloc: Global,
    events: u32,
    judge: &Judge,
    found: Found,
) -> Result<(Draft, Outcome), AllocError>
    ensures { IfOk result (λ told. (s : Sofar) (cells : Cells) → IsBehind judge.now s
        → Legal cells (history_in s) → IsFound (history_in s) found → events ≡ length (history_in s)
        → IsLegalReport (history_in s) told.1 told.0) }
{
    let Found {
        races,
        mut lines,
        count,
        is_unordered,
    } = found;
    forget(races);
    let (mut names, unended) = unended_names(alloc, judge)?;
    put_head(&mut names, alloc, events, unended)?;
    put_front(&mut lines, names, count)?;
    Ok((lines, outcome(is_unordered, unended)))
}

/// The report of a text that is a legal run of so many events, and what it says.
fn run_report(
    alloc: Global,
    events: u32,
    judge: &Judge,
    found: Found,
) -> Result<(Draft, Outcome), Halt>
    ensures { (lines : List (List ℕ)) → IsLegal events judge.now lines → FoundIn lines found
        → Reported lines result }
{
    match legal_report(alloc, events, judge, found) {
        Ok(told) => Ok(told),
        Err(_) => Err(Halt::Memory),
    }
}

/// The report of the text with this verdict and these races, and what it says; or the fault of its line.
pub fn report(alloc: Global, verdict: &Verdict, found: Found) -> Result<(Draft, Outcome), Halt>
    ensures { (lines : List (List ℕ)) → IsVerdict verdict.now lines → FoundIn lines found
        → Reported lines result }
{
    match verdict {
        Verdict::Legal { events, judge } => run_report(alloc, *events, judge, found),
        Verdict::Refused { line, refusal } => match refused_report(alloc, *line, refusal) {
            Ok(report) => Ok((report, Outcome::Refused)),
            Err(_) => Err(Halt::Memory),
        },
        Verdict::Faulty { line, fault } => Err(Halt::Faulty {
            line: *line,
            fault: *fault,
        }),
    }
}
