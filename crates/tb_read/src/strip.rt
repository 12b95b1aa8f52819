//! The private statements around a line.

ghost use Rattle.std.specs.Prelude.{◌≡◌, ◌≤◌, ◌<◌, ◌+◌, ◌-◌, ℕ, suc, nat_lt, None, slice_index_or, if◌then◌else◌};
ghost use Rattle.std.specs.Option.{option_map};
ghost use Rattle.tb_plan.specs.Strips.{instruction_of};
ghost use Rattle.tb_read.specs.Strips.{IsStripOf, private_at, begins_body, first_line, last_line};

use crate::program::Program;
use tb_model::Statement;
use tb_plan::{PrivateLine, Strip, private_of};

/// The private statements of a line's body, from 63 lines in front of the line to 63 after it.
pub fn strip_around(program: &Program, at: u32) -> Strip
    requires { at < 65537 }
    ensures { IsStripOf program.now at result }
{
    let first = first_line(program, at, 63);
    let last = last_line(program, at, 63);
    Strip {
        first,
        lines: lines_from(program, first, last - first + 1),
    }
}

fn begins_body(program: &Program, line: u32) -> bool
    ensures { result ≡ begins_body program.now line }
{
    match program.instr(line) {
        Some(instr) => matches!(instr.statement, Statement::Start),
        None => false,
    }
}

fn private_at(program: &Program, line: u32) -> Option<PrivateLine>
    ensures { option_map instruction_of result ≡ private_at program.now line }
{
    private_of(program.instr(line)?)
}

#[tactic(auto, using(crate::proofs::StripLemmas::first_none, crate::proofs::StripLemmas::first_here, crate::proofs::StripLemmas::first_back))]
/// The first line of the body, but at most so many lines in front of the line.
fn first_line(program: &Program, at: u32, most: u32) -> u32
    ensures line { result ≡ first_line program.now at most }
    ensures above { result ≤ at }
    ensures near { at ≤ result + most }
{
    if most == 0 {
        return at;
    }
    if begins_body(program, at) {
        return at;
    }
    first_line(program, at.saturating_sub(1), most - 1)
}

#[tactic(auto, using(crate::proofs::StripLemmas::last_none, crate::proofs::StripLemmas::last_here, crate::proofs::StripLemmas::last_on))]
/// The last line in front of the next body, but at most so many lines after the line.
fn last_line(program: &Program, at: u32, most: u32) -> u32
    requires { at + most < 4294967296 }
    ensures line { result ≡ last_line program.now at most }
    ensures below { at ≤ result }
    ensures near { result ≤ at + most }
{
    if most == 0 {
        return at;
    }
    if begins_body(program, at + 1) {
        return at;
    }
    last_line(program, at + 1, most - 1)
}

/// The private statements of so many lines, from the first one on.
fn lines_from(program: &Program, first: u32, count: u32) -> [Option<PrivateLine>; 127]
    requires few { count ≤ 127 }
    requires fits { first + count < 4294967296 }
    ensures { (k : ℕ) → option_map instruction_of (slice_index_or result k None) ≡ (if nat_lt k count then private_at program.now (first + k) else None) }
{
    let mut lines = [None; 127];
    for at in 0..count {
        lines[at as usize] = private_at(program, first + at);
    }
    lines
}
