//! Instructions whose statement is private.

ghost use Rattle.std.specs.Prelude.{◌≡◌};
ghost use Rattle.std.specs.Option.{option_map};
ghost use Rattle.tb_plan.specs.Plans.{instruction};
ghost use Rattle.tb_plan.specs.Strips.{instruction_of, private_instr};

use crate::instr::Instr;
use crate::private::Private;
use crate::private_line::PrivateLine;

/// What is at the instruction's line, where it is private.
pub fn private_of(instr: &Instr) -> Option<PrivateLine>
    ensures { option_map instruction_of result ≡ private_instr (instruction instr.now) }
{
    match Private::of(&instr.statement) {
        Some(statement) => Some(PrivateLine {
            statement,
            next: instr.next,
            otherwise: instr.otherwise,
        }),
        None => None,
    }
}

/// The instruction of a private line of a program with so many cells.
pub fn instr_of(private: PrivateLine, line: u32, cells: u32) -> Instr
    ensures line { result.line ≡ line }
    ensures instr { instruction result ≡ instruction_of private }
    ensures cells { result.cells ≡ cells }
{
    Instr {
        line,
        statement: private.statement.statement(),
        next: private.next,
        otherwise: private.otherwise,
        cells,
    }
}
