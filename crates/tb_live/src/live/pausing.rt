//! Pauses of a run, and its breakpoints.

ghost use Rattle.std.specs.Prelude.{◌≡◌, OnErr};
ghost use Rattle.tb_control.specs.declared.mode.Mode.TheVariants.{Resumed};
ghost use Rattle.tb_control.specs.Breaks.{AreNumbered};
ghost use Rattle.tb_control.specs.Modes as modes;
ghost use Rattle.tb_live.specs.Pauses.{with_mode, misplaced, AddsBreak, ClearsBreak};

use super::Live;
use tb_control::{Break, BreakRefusal, Breakpoint, Mode};
use tb_read::Program;

impl Live {
    /// Whether steps are executed, and what paused the run where they aren't.
    pub fn mode(&self) -> Mode
        ensures { result ≡ self.now.session.control.mode }
    {
        self.control.mode
    }

    /// Pauses the run. What is paused stays as it is.
    pub fn pause(&mut self)
        ensures { self.new.session ≡ with_mode self.old.session (modes.paused self.old.session.control.mode) }
    {
        self.control.mode = self.control.mode.paused();
    }

    /// Lets the run go on.
    pub fn resume(&mut self)
        ensures { self.new.session ≡ with_mode self.old.session Resumed }
    {
        self.control.mode = Mode::Resumed;
    }

    /// Lets the run go on for so many steps. None pauses it at once.
    pub fn resume_for(&mut self, steps: u32)
        ensures { self.new.session ≡ with_mode self.old.session (modes.counting steps) }
    {
        self.control.mode = Mode::counting(steps);
    }

    /// The breakpoints that are there, in the order in which they were made.
    pub fn breakpoints(&self) -> &[Breakpoint]
        ensures standing { result.now ≡ self.now.session.control.breakpoints.standing }
        ensures numbered { AreNumbered self.now.session.control.breakpoints }
    {
        self.control.breakpoints.as_slice()
    }

    /// Makes a breakpoint, and answers its number. A body is named by its line. What is prepared is
    /// retained.
    pub fn add_break(&mut self, at: Break) -> Result<u32, BreakRefusal>
        ensures added { AddsBreak self.old.session at self.new.session result }
        ensures kept { OnErr result (self.new ≡ self.old) }
        ensures prepared { self.new.prepared ≡ self.old.prepared }
    {
        if let Some(refusal) = misplaced(&self.program, &at) {
            return Err(refusal);
        }
        self.control.breakpoints.add(at)
    }

    /// Takes a breakpoint away. Takes no memory, and retains what is prepared.
    pub fn clear_break(&mut self, number: u32) -> Result<(), BreakRefusal>
        ensures cleared { ClearsBreak self.old.session number self.new.session result }
        ensures kept { OnErr result (self.new ≡ self.old) }
        ensures prepared { self.new.prepared ≡ self.old.prepared }
    {
        if !self.control.breakpoints.stands(number) {
            return Err(BreakRefusal::NoSuchBreak);
        }
        self.control.breakpoints.clear(number);
        Ok(())
    }
}

/// What the program lacks for the breakpoint, if anything: its line's body, or its cell.
fn misplaced(program: &Program, at: &Break) -> Option<BreakRefusal>
    ensures { result ≡ misplaced program.now at.now }
{
    match at {
        Break::Body(line) => match program.body_name(*line) {
            Some(_) => None,
            None => Some(BreakRefusal::NoSuchBody),
        },
        Break::Cell(cell) => {
            if (*cell as usize) < program.cells().len() {
                None
            } else {
                Some(BreakRefusal::NoSuchCell)
            }
        }
        _ => None,
    }
}
