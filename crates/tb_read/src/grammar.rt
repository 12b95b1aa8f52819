//! The number of a line's words, and the index of each.

ghost use Rattle.std.specs.Prelude.{◌≡◌, map};
ghost use Rattle.tb_read.specs.Grammar.{places, is_miscounted};
ghost use Rattle.tb_read.specs.Context.{has_misplaced};
ghost use Rattle.tb_read.specs.Misfits.{has};
ghost use Rattle.tb_read.specs.declared.fault.FaultKind.{FaultKind};

use crate::clauses::{add_behind_name, add_clauses};
use crate::head::Head;
use crate::misfits::Misfits;
use crate::place::Place;

/// The indexes of the words after a head, as far as they don't depend on the words.
fn places(head: Head) -> &'static [Place]
    ensures { result.now ≡ places head }
{
    match head {
        Head::Cells => &[Place::Number],
        Head::Cell => &[Place::Number, Place::Number],
        Head::Body => &[Place::Name, Place::Number],
        Head::Let => &[
            Place::Destination,
            Place::Operand,
            Place::Operator,
            Place::Operand,
        ],
        Head::Load => &[Place::Destination, Place::Operand],
        Head::Store => &[Place::Operand, Place::Operand],
        Head::Print => &[Place::Operand],
        Head::Task => &[Place::Name],
        Head::If | Head::While => &[Place::Operand, Place::Comparison, Place::Operand],
        Head::End | Head::Taskwait | Head::Taskgroup | Head::Else => &[],
    }
}

/// Whether so many words after the head are too few or too many.
pub fn is_miscounted(head: Head, words: usize) -> bool
    ensures { result ≡ is_miscounted head words }
{
    match head {
        Head::Cells | Head::Print => words != 1,
        Head::Cell | Head::Body | Head::Load | Head::Store => words != 2,
        Head::Let => !(words == 2 || words == 4),
        Head::If | Head::While => words != 3,
        Head::End | Head::Taskgroup | Head::Else => words != 0,
        Head::Task => words == 0,
        Head::Taskwait => false,
    }
}

/// The faults of the words after the head at their indexes.
pub fn misplaced(head: Head, words: &[&[u8]]) -> Misfits
    ensures { (fault : FaultKind) → has result fault ≡ has_misplaced fault head (map (λ word. word.now) words.now) }
{
    let mut found = Misfits::none();
    found.add_all(places(head), words);
    match head {
        Head::Task => match words {
            [] => {}
            [_, rest @ ..] => add_behind_name(&mut found, rest),
        },
        Head::Taskwait => add_clauses(&mut found, true, words),
        _ => {}
    }
    found
}
