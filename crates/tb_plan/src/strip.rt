//! Private statements that are close to one another.

ghost use Rattle.std.specs.Prelude.{◌≡◌};
ghost use Rattle.std.specs.Option.{option_map};
ghost use Rattle.tb_plan.specs.Strips.{strip_at, instruction_of};

use crate::private_line::PrivateLine;

/// The private statements of up to 127 lines that are one after another. It takes no memory.
#[derive(Debug, Drop)]
pub struct Strip {
    /// The line of the first of these.
    pub first: u32,
    pub lines: [Option<PrivateLine>; 127],
}

impl Strip {
    /// The private statement of a line, where the strip has it.
    pub(crate) fn at(&self, line: u32) -> Option<PrivateLine>
        ensures { option_map instruction_of result ≡ strip_at self.now line }
    {
        if line < self.first {
            return None;
        }
        let place = (line - self.first) as usize;
        if place < 127 { self.lines[place] } else { None }
    }
}
