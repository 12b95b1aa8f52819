//! Why a breakpoint isn't made or cleared.

ghost use Rattle.std.specs.Prelude.{◌≡◌};
ghost use Rattle.tb_control.specs.Numbers.{break_number};

/// Why a breakpoint isn't made, or isn't cleared.
#[derive(Clone, Copy, Debug, Drop, PartialEq, Eq)]
pub enum BreakRefusal {
    /// A growth was refused.
    Memory,
    /// As many breakpoints are set as may be, or all numbers were given.
    TooMany,
    /// No breakpoint with this number is set.
    NoSuchBreak,
    /// The line names no body.
    NoSuchBody,
    /// The program has no such cell.
    NoSuchCell,
}

impl BreakRefusal {
    /// The code by which replies name the refusal.
    pub fn number(&self) -> u8
        ensures { result ≡ break_number self.now }
    {
        match self {
            BreakRefusal::Memory => 0,
            BreakRefusal::TooMany => 1,
            BreakRefusal::NoSuchBreak => 2,
            BreakRefusal::NoSuchBody => 3,
            BreakRefusal::NoSuchCell => 4,
        }
    }
}
