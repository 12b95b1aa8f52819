//! Reads a program text.

ghost use Rattle.std.specs.Prelude.{◌≡◌, ◌≢◌, ◌≤◌, ℕ, List, IfOk, IfErr, OnOk, length, map, codes};
ghost use Rattle.tb_read.specs.Context.{Context};
ghost use Rattle.tb_read.specs.Headings.{headings_from, heading_of};
ghost use Rattle.tb_read.specs.Meaning.{IsProgramOf, first_number, line_of, lines_in};
ghost use Rattle.tb_read.specs.Reading.{context_at, IsAccepted, IsFirstFault};
ghost use Rattle.tb_read.specs.Shown.{shown_line};
ghost use Rattle.tb_read.specs.Text.{numbered};
ghost use Rattle.tb_read.specs.declared.fault.FaultKind.TheVariants.{Memory};

use crate::build::instrs;
use crate::context::Lines;
use crate::fault::{FaultKind, ReadFault};
use crate::follow::ways;
use crate::heading::{Headings, headings_of};
use crate::line::Line;
use crate::meaning::line_of;
use crate::program::Program;
use crate::reading::read_lines;
use crate::text::numbered;
use std::alloc::{AllocError, Global};

fn first_numbers(alloc: Global, cells: &[Option<i64>]) -> Result<Vec<i64>, AllocError>
    ensures { IfOk result (λ firsts. firsts.items ≡ map first_number cells.now) }
{
    cells.iter().map(|cell| cell.unwrap_or(0)).collect(alloc)
}

/// The program of lines that are all accepted.
fn program(
    alloc: Global,
    lines: &[&[u8]],
    before: Lines,
    all: Vec<Line>,
    root_line: u32,
) -> Result<Program, AllocError>
    requires few { length lines.now ≤ 65537 }
    requires accepted { IsAccepted (map (λ line. line.now) lines.now) }
    requires told { before ≡ context_at (map (λ line. line.now) lines.now) (length lines.now) }
    requires all { map shown_line all.items ≡ lines_in (map (λ line. line.now) lines.now) }
    requires root_line { root_line ≡ line_of (heading_of (headings_from 0 (map (λ line. line.now) lines.now)) (codes "main")) }
    ensures accepted { OnOk result (IsAccepted (map (λ line. line.now) lines.now)) }
    ensures program { IfOk result (λ p. IsProgramOf (map (λ line. line.now) lines.now) p) }
{
    let ways = ways(alloc, &all)?;
    let (given, bodies) = before.into_parts();
    let cells = first_numbers(alloc, &given)?;
    let instrs = instrs(alloc, all, &ways, cells.len() as u32)?;
    Ok(Program::new(cells, bodies, instrs, root_line))
}

/// Reads the lines of a text, of which the bodies are known.
fn read_known(alloc: Global, lines: &[&[u8]], headings: &Headings<'_>) -> Result<Program, ReadFault>
    requires { (name : List ℕ) → heading_of headings.now name ≡ heading_of (headings_from 0 (map (λ line. line.now) lines.now)) name }
    ensures accepted { OnOk result (IsAccepted (map (λ line. line.now) lines.now)) }
    ensures program { IfOk result (λ p. IsProgramOf (map (λ line. line.now) lines.now) p) }
    ensures refused { IfErr result (λ e. e.kind ≢ Memory → IsFirstFault (map (λ line. line.now) lines.now) e.line e.kind) }
    ensures within { IfErr result (λ e. e.line ≤ length lines.now) }
{
    match read_lines(alloc, lines, headings) {
        Err(fault) => Err(fault),
        Ok((before, all)) => match before.last_fault(lines.len(), headings) {
            Some(kind) => Err(ReadFault {
                line: lines.len() as u32,
                kind,
            }),
            None => match program(alloc, lines, before, all, line_of(headings.get(b"main"))) {
                Ok(program) => Ok(program),
                Err(_) => Err(ReadFault {
                    line: lines.len() as u32,
                    kind: FaultKind::Memory,
                }),
            },
        },
    }
}

/// Reads a program text. A fault of kind Memory says that memory ran out at that line.
pub fn read(alloc: Global, text: &[u8]) -> Result<Program, ReadFault>
    ensures accepted { OnOk result (IsAccepted (numbered text.now)) }
    ensures program { IfOk result (λ p. IsProgramOf (numbered text.now) p) }
    ensures refused { IfErr result (λ e. e.kind ≢ Memory → IsFirstFault (numbered text.now) e.line e.kind) }
    ensures within { IfErr result (λ e. e.line ≤ length (numbered text.now)) }
{
    let lines = match numbered(alloc, text) {
        Ok(lines) => lines,
        Err(_) => return Err(ReadFault {
            line: 1,
            kind: FaultKind::Memory,
        }),
    };
    match headings_of(alloc, &lines) {
        Ok(headings) => read_known(alloc, &lines, &headings),
        Err(_) => Err(ReadFault {
            line: 1,
            kind: FaultKind::Memory,
        }),
    }
}
