//! One statement of a program, with what is needed to take it.

ghost use Rattle.std.specs.Prelude.{IsTrue};
ghost use Rattle.tb_plan.specs.Statements.{is_sound};

use std::alloc::AllocError;
use std::mem::size_of;
use tb_model::Statement;

/// The statement at a line, the lines that follow (`otherwise` after a test that says no), and the
/// count of cells of the program.
#[derive(Debug, Drop)]
pub struct Instr {
    pub statement: Statement,
    pub line: u32,
    pub next: u32,
    pub otherwise: u32,
    pub cells: u32,
    /// The statement's registers are 0 to 15, and it has at most 16 arguments.
    pub ghost sound: { IsTrue (is_sound statement) },
}

// a program retains as many as it has lines
const _: () = prove!(size_of::<Option<Instr>>() == 80);

impl Clone for Instr {
    ghost use Rattle.std.specs.Prelude.{◌≡◌};

    ghost is_clone = { λ a b. b ≡ a };

    fn clone(&self) -> Result<Instr, AllocError> {
        Ok(Instr {
            line: self.line,
            statement: self.statement.clone()?,
            next: self.next,
            otherwise: self.otherwise,
            cells: self.cells,
        })
    }
}
