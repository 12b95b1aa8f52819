//! The instructions of an accepted text.

ghost use Rattle.std.specs.Prelude.{◌≡◌, ◌<◌, ◌≤◌, ℕ, List, [], ◌∷◌, ◌++◌, suc, length, map, slice_get, slice_index, Some, if◌then◌else◌, IfOk};
ghost use Rattle.tb_plan.specs.Statements.{is_test};
ghost use Rattle.tb_read.specs.Flow.{Line as Shown};
ghost use Rattle.tb_read.specs.Followed.{is_last};
ghost use Rattle.tb_read.specs.Meaning.{AreInstrsOf, IsInstrAt};
ghost use Rattle.tb_read.specs.Shown.{shown_line, shown_instr, IsPlaced, ArePlaced};
ghost use Rattle.tb_read.specs.Ways.{AreWaysOf};

use crate::line::Line;
use crate::ways::Ways;
use std::alloc::{AllocError, Global};
use tb_model::Statement;
use tb_plan::Instr;

/// Takes the last line off. The memory of lines that were taken off goes back every 4,096 lines.
fn take_last(lines: &mut Vec<Line>) -> Line
    requires { 0 < length lines.old.items }
    ensures { lines.old.items ≡ lines.new.items ++ result ∷ [] }
{
    if lines.len() % 4096 == 0 {
        lines.shrink_to_fit();
    }
    lines.pop().unwrap()
}

fn is_last(statement: &Statement) -> bool
    ensures { result ≡ is_last statement.now }
{
    matches!(statement, Statement::End)
}

fn is_test(statement: &Statement) -> bool
    ensures { result ≡ is_test statement.now }
{
    matches!(statement, Statement::Test { .. })
}

/// The line that follows a statement, or the next one after the end of a body.
fn next_of(statement: &Statement, arrivals: &[u32], at: usize) -> u32
    requires at { suc at < length arrivals.now }
    requires few { at < 65537 }
    ensures { result ≡ (if is_last statement.now then suc at else slice_index arrivals.now (suc at)) }
{
    if is_last(statement) {
        at as u32 + 1
    } else {
        arrivals[at + 1]
    }
}

/// The line that follows a test that says no. Others have but one line after them.
fn otherwise_of(statement: &Statement, arrivals: &[u32], turn: u32, next: u32) -> u32
    requires { suc turn < length arrivals.now }
    ensures { result ≡ (if is_test statement.now then slice_index arrivals.now (suc turn) else next) }
{
    if is_test(statement) {
        arrivals[turn as usize + 1]
    } else {
        next
    }
}

/// The instruction of a line at this index.
fn instr_at(line: Line, ways: &Ways, cells: u32, at: usize) -> Option<Instr>
    requires few { at < 65537 }
    requires at { suc at < length ways.now.arrivals.items }
    requires turn_at { at < length ways.now.turns.items }
    requires turn { suc (slice_index ways.now.turns.items at) < length ways.now.arrivals.items }
    ensures instr { (lines : List Shown) → AreWaysOf lines ways.now → at < length lines → slice_get lines at ≡ Some (shown_line line) → IsInstrAt lines at (shown_instr result) }
    ensures placed { IsPlaced cells at result }
{
    match line {
        Line::Stands(parsed) => {
            let next = next_of(&parsed.statement, &ways.arrivals, at);
            let turn = ways.turns[at];
            let otherwise = otherwise_of(&parsed.statement, &ways.arrivals, turn, next);
            Some(Instr {
                line: at as u32,
                statement: parsed.statement,
                next,
                otherwise,
                cells,
            })
        }
        Line::Passed => None,
        Line::Else => None,
        Line::EndIf => None,
        Line::EndWhile(_) => None,
    }
}

/// The instructions of all lines.
pub fn instrs(
    alloc: Global,
    lines: Vec<Line>,
    ways: &Ways,
    cells: u32,
) -> Result<Vec<Option<Instr>>, AllocError>
    requires few { length lines.items ≤ 65537 }
    requires ways { AreWaysOf (map shown_line lines.items) ways.now }
    ensures count { IfOk result (λ instrs. length instrs.items ≡ length lines.items) }
    ensures instrs { IfOk result (λ instrs. AreInstrsOf (map shown_line lines.items) (map shown_instr instrs.items)) }
    ensures placed { IfOk result (λ instrs. ArePlaced cells instrs.items) }
{
    let count = lines.len();
    let mut instrs = Vec::with_capacity(alloc, count)?;
    // turned round, so that the first line is taken off first, and all lines are never in memory
    // with all instructions
    let mut left = lines;
    left.reverse();
    for at in 0..count {
        let line = take_last(&mut left);
        instrs.push(instr_at(line, ways, cells, at))?;
    }
    Ok(instrs)
}
