//! The breakpoints of a run.

ghost use Rattle.std.specs.Prelude.{◌≡◌, IfOk, IfErr, OnErr, OnOk, IsFalse, suc, not, filter};
ghost use Rattle.std.specs.List.{list_any};
ghost use Rattle.tb_control.specs.Breaks.{AreNumbered, IsRefused, met, no_points, are_too_many, with_break, has_number, is_standing, without_break};

use crate::break_refusal::BreakRefusal;
use crate::breakpoint::Breakpoint;
use crate::breaks::Break;
use std::alloc::Global;
use std::marker::Model;
use tb_model::{Action, TaskName};

/// Numbered breakpoints. A number is never used again; at most 64 are set at once, and the last
/// number is 1,000,000.
#[derive(Debug, Drop)]
pub struct Breakpoints {
    standing: Vec<Breakpoint>,
    given: u32,
}

impl Model for Breakpoints {
    ghost use Rattle.tb_control.specs.Breaks.{Points, AreNumbered};

    ghost Value = { Points };

    ghost view = { λ b. record { standing = b.standing.items; given = b.given } };

    ghost invariant = { λ b. AreNumbered (record { standing = b.standing.items; given = b.given }) };
}

impl Breakpoints {
    /// No breakpoints. Takes no memory.
    pub fn new(alloc: Global) -> Breakpoints
        ensures { result ≡ no_points }
    {
        Breakpoints {
            standing: Vec::new(alloc),
            given: 0,
        }
    }

    /// Makes a breakpoint, and answers its number.
    pub fn add(&mut self, at: Break) -> Result<u32, BreakRefusal>
        ensures number { IfOk result (λ n. n ≡ suc self.old.given) }
        ensures made { OnOk result (self.new ≡ with_break self.old at) }
        ensures room { OnOk result (IsFalse (are_too_many self.old)) }
        ensures err { OnErr result (self.new ≡ self.old) }
        ensures refused { IfErr result (IsRefused self.old) }
    {
        if 64 <= self.standing.as_slice().len() || 1000000 <= self.given {
            return Err(BreakRefusal::TooMany);
        }
        if self.standing.reserve(1).is_err() {
            return Err(BreakRefusal::Memory);
        }
        self.given += 1;
        self.standing.push_reserved(Breakpoint {
            number: self.given,
            at,
        });
        Ok(self.given)
    }

    /// Whether a breakpoint with this number is there.
    pub fn stands(&self, number: u32) -> bool
        ensures { result ≡ is_standing number self.now }
    {
        is_standing(&self.standing, number)
    }

    /// Takes a breakpoint away, where it is. Takes no memory.
    pub fn clear(&mut self, number: u32)
        ensures { self.new ≡ without_break number self.old }
    {
        drop_number(&mut self.standing, number);
    }

    /// The number of the first breakpoint that the step meets, which the task took with this
    /// action. The task was at this line.
    #[inline(always)]
    pub fn met(&self, line: u32, task: &TaskName, action: &Action) -> Option<u32>
        ensures { result ≡ met line (record { task = task.now; action = action.now }) self.now.standing }
    {
        first_met(&self.standing, line, task, action)
    }

    /// The breakpoints that are there, in the order in which they were made.
    pub fn as_slice(&self) -> &[Breakpoint]
        ensures standing { result.now ≡ self.now.standing }
        ensures numbered { AreNumbered self.now }
    {
        self.standing.as_slice()
    }
}

#[inline(always)]
fn first_met(breakpoints: &[Breakpoint], line: u32, task: &TaskName, action: &Action) -> Option<u32>
    ensures { result ≡ met line (record { task = task.now; action = action.now }) breakpoints.now }
{
    for breakpoint in breakpoints {
        if breakpoint.at.meets(line, task, action) {
            return Some(breakpoint.number);
        }
    }
    None
}

fn is_standing(breakpoints: &[Breakpoint], number: u32) -> bool
    ensures { result ≡ list_any (has_number number) breakpoints.now }
{
    breakpoints.iter().any(|b| b.number == number)
}

fn drop_number(breakpoints: &mut Vec<Breakpoint>, number: u32)
    ensures { breakpoints.new.items ≡ filter (λ b. not (has_number number b)) breakpoints.old.items }
{
    breakpoints.retain(|b| b.number != number);
}
