//! A program that was accepted.

ghost use Rattle.std.specs.Prelude.{◌≡◌, ◌<◌, ◌≤◌, ◌↔◌, IsSome, IfSome, IfNone, length, map, slice_get, slice_index_or, Some};
ghost use Rattle.std.specs.Option.{option_map};
ghost use Rattle.tb_model.specs.Program.{instr_at, no_instr};
ghost use Rattle.tb_plan.specs.Plans.{instruction};
ghost use Rattle.tb_read.specs.Meaning.{IsPosition};
ghost use Rattle.tb_read.specs.Bodies.{named, name_at};
ghost use Rattle.tb_read.specs.Shown.{shown_instr};
ghost use Rattle.tb_read.specs.Soundness.{IsKept, IsSound};

use crate::body::Body;
use std::marker::Model;
use tb_plan::Instr;

/// A program: its cells with their first values, its bodies, and an instruction for each line at
/// which a task can be.
#[derive(Debug, Drop)]
pub struct Program {
    cells: Vec<i64>,
    bodies: Vec<Body>,
    lines: Vec<Option<Instr>>,
    root_line: u32,
}

impl Model for Program {
    ghost use Rattle.std.specs.Prelude.{map};
    ghost use Rattle.tb_model.specs.Program.{Program as Model};
    ghost use Rattle.tb_read.specs.Bodies.{named};
    ghost use Rattle.tb_read.specs.Shown.{shown_instr};
    ghost use Rattle.tb_read.specs.Soundness.{IsKept};

    ghost Value = { Model };

    ghost view = { λ p. record { cells = p.cells.items; bodies = map named p.bodies.items; lines = map shown_instr p.lines.items; root_line = p.root_line } };

    ghost invariant = { λ p. IsKept (record { cells = p.cells.items; bodies = map named p.bodies.items; lines = map shown_instr p.lines.items; root_line = p.root_line }) p.lines.items };
}

/// The instruction of a line.
fn slot_at(lines: &[Option<Instr>], at: usize) -> Option<&Instr>
    ensures none { IfNone result (slice_index_or (map shown_instr lines.now) at no_instr ≡ no_instr) }
    ensures some { IfSome result (λ i. slice_get lines.now at ≡ Some (Some i.now)) }
{
    if at < lines.len() {
        match &lines[at] {
            Some(instr) => Some(instr),
            None => None,
        }
    } else {
        None
    }
}

impl Program {
    /// A program of these parts.
    pub(crate) fn new(
        cells: Vec<i64>,
        bodies: Vec<Body>,
        lines: Vec<Option<Instr>>,
        root_line: u32,
    ) -> Program
        requires { IsKept (record { cells = cells.items; bodies = map named bodies.items; lines = map shown_instr lines.items; root_line = root_line }) lines.items }
        ensures { result ≡ record { cells = cells.items; bodies = map named bodies.items; lines = map shown_instr lines.items; root_line = root_line } }
    {
        Program {
            cells,
            bodies,
            lines,
            root_line,
        }
    }

    /// The first number of each cell.
    pub fn cells(&self) -> &[i64]
        ensures cells { result.now ≡ self.now.cells }
        ensures few { length result.now ≤ 65536 }
    {
        &self.cells
    }

    /// The line of the body `main`.
    pub fn root_line(&self) -> u32
        ensures line { result ≡ self.now.root_line }
        ensures sound { IsSound self.now }
    {
        self.root_line
    }

    /// One more than the number of the last line. Lines count from 1.
    pub fn line_count(&self) -> u32
        ensures count { result ≡ length self.now.lines }
        ensures few { result ≤ 65537 }
    {
        self.lines.len() as u32
    }

    /// The name of the body that the line begins.
    pub fn body_name(&self, line: u32) -> Option<&str>
        ensures { option_map (λ name. name.now) result ≡ name_at line self.now.bodies }
    {
        for body in &self.bodies {
            if body.line == line {
                return Some(&body.name);
            }
        }
        None
    }

    /// The instruction of the line, where a task can be there.
    pub fn instr(&self, at: u32) -> Option<&Instr>
        ensures position { IsSome result ↔ IsPosition self.now at }
        ensures instr { IfSome result (λ i. instruction i.now ≡ instr_at self.now at) }
        ensures line { IfSome result (λ i. i.now.line ≡ at) }
        ensures cells { IfSome result (λ i. i.now.cells ≡ length self.now.cells) }
    {
        slot_at(&self.lines, at as usize)
    }
}
