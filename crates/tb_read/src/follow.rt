//! Where control goes from each line.

ghost use Rattle.std.specs.Prelude.{◌≡◌, ℕ, suc, ◌<◌, ◌≤◌, ◌+◌, ◌∷◌, drop, length, map, reverse, slice_get, slice_index, vec_len, Some, IfOk, OnOk};
ghost use Rattle.tb_read.specs.Flow.{Arrives, levels_by, levels_over, levels_behind, end_of, turn_of, closed, turned};
ghost use Rattle.tb_read.specs.Ways.{AreWaysOf};
ghost use Rattle.tb_read.specs.Shown.{shown_line};

use crate::level::Level;
use crate::line::Line;
use crate::stack::{cut, put, top};
use crate::ways::Ways;
use std::alloc::{AllocError, Global};
use tb_model::Statement;

fn close(levels: &mut Vec<Level>, at: u32) -> Result<(), AllocError>
    ensures { OnOk result (reverse levels.new.items ≡ closed at ∷ reverse levels.old.items) }
{
    put(levels, Level { end: at, turn: at })
}

/// An `else` is where its block turns.
fn turn(levels: &mut Vec<Level>, at: u32) -> Result<(), AllocError>
    ensures { OnOk result (reverse levels.new.items ≡ turned at (reverse levels.old.items)) }
{
    match top(levels) {
        None => Ok(()),
        Some(level) => {
            cut(levels);
            put(
                levels,
                Level {
                    end: level.end,
                    turn: at,
                },
            )
        }
    }
}

fn pass_statement(levels: &mut Vec<Level>, at: u32, statement: &Statement) -> Result<(), AllocError>
    ensures { OnOk result (reverse levels.new.items ≡ levels_by at statement.now (reverse levels.old.items)) }
{
    match statement {
        Statement::Start | Statement::Taskgroup | Statement::Test { .. } => {
            cut(levels);
            Ok(())
        }
        Statement::EndTaskgroup | Statement::End => close(levels, at),
        _ => Ok(()),
    }
}

/// From the blocks that are open after a line to those that are open in front of it.
fn pass(levels: &mut Vec<Level>, at: u32, line: &Line) -> Result<(), AllocError>
    ensures { OnOk result (reverse levels.new.items ≡ levels_over at (shown_line line.now) (reverse levels.old.items)) }
{
    match line {
        Line::Passed => Ok(()),
        Line::Stands(parsed) => pass_statement(levels, at, &parsed.statement),
        Line::Else => turn(levels, at),
        Line::EndIf => close(levels, at),
        Line::EndWhile(_) => close(levels, at),
    }
}

fn end_of(at: u32, levels: &[Level]) -> u32
    ensures { result ≡ end_of at (reverse levels.now) }
{
    match top(levels) {
        Some(level) => level.end,
        None => at,
    }
}

fn turn_of(at: u32, levels: &[Level]) -> u32
    ensures { result ≡ turn_of at (reverse levels.now) }
{
    match top(levels) {
        Some(level) => level.turn,
        None => at,
    }
}

/// What a line is.
pub fn line_at(lines: &[Line], at: usize) -> &Line
    requires { at < length lines.now }
    ensures { slice_get (map shown_line lines.now) at ≡ Some (shown_line result.now) }
{
    &lines[at]
}

/// Where control is that goes on after a line.
fn behind(arrivals: &[u32], at: u32) -> u32
    requires { suc at < length arrivals.now }
    ensures { result ≡ slice_index arrivals.now (suc at) }
{
    arrivals[at as usize + 1]
}

/// Where control is that comes to a line from above.
fn arrival(lines: &[Line], arrivals: &[u32], levels: &[Level], at: usize) -> u32
    requires at { at < length lines.now }
    requires few { length lines.now ≤ 65537 }
    requires room { length arrivals.now ≡ length lines.now + 1 }
    requires levels { reverse levels.now ≡ levels_behind (map shown_line lines.now) at }
    requires arrives { (n : ℕ) → at < n → n ≤ length lines.now → Arrives (map shown_line lines.now) n (slice_index arrivals.now n) }
    ensures { Arrives (map shown_line lines.now) at result }
{
    match line_at(lines, at) {
        Line::Passed => behind(arrivals, at as u32),
        Line::EndIf => behind(arrivals, at as u32),
        Line::Stands(_) => at as u32,
        Line::Else => behind(arrivals, end_of(at as u32, levels)),
        Line::EndWhile(from) => *from,
    }
}

/// The ways of all lines.
pub fn ways(alloc: Global, lines: &[Line]) -> Result<Ways, AllocError>
    requires { length lines.now ≤ 65537 }
    ensures { IfOk result (λ w. AreWaysOf (map shown_line lines.now) w) }
{
    let mut arrivals = vec![in alloc; lines.len() as u32; lines.len() + 1]?;
    let mut turns = vec![in alloc; 0; lines.len()]?;
    let mut levels = Vec::new(alloc);
    let mut at = lines.len();
    while at > 0 {
        at -= 1;
        let stands = arrival(lines, &arrivals, &levels, at);
        arrivals[at] = stands;
        turns[at] = turn_of(at as u32, &levels);
        pass(&mut levels, at as u32, line_at(lines, at))?;
    }
    Ok(Ways { arrivals, turns })
}
