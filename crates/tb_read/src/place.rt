//! What a word is to be at its index.

ghost use Rattle.std.specs.Prelude.{◌≡◌, None, Some, if◌then◌else◌};
ghost use Rattle.tb_read.specs.Grammar.{is_type, operand_misfit, misfit};

use crate::fault::FaultKind;
use crate::word::{
    comparison, is_all, is_name, kind, number, operand, operator, register, resembles_register,
    same_word,
};
use tb_model::Kind;

/// What a word is to be at its index.
#[derive(Clone, Copy, Debug, PartialEq, Eq)]
pub enum Place {
    Number,
    Destination,
    Operand,
    Operator,
    Comparison,
    Name,
    /// The word `depend`.
    Depend,
    /// A dependence type, of a `taskwait` or of a `task` line.
    Dependence { on_wait: bool },
    /// An operand, or all memory after a type that allows it.
    Address { allows_all: bool },
}

/// Whether the line may name the type.
fn is_type(on_wait: bool, found: Option<Kind>) -> bool
    ensures { result ≡ is_type on_wait found }
{
    match found {
        Some(Kind::Mutexinoutset) => !on_wait,
        Some(_) => true,
        None => false,
    }
}

fn operand_misfit(word: &[u8]) -> Option<FaultKind>
    ensures { result ≡ operand_misfit word.now }
{
    if operand(word).is_some() {
        None
    } else if resembles_register(word) {
        Some(FaultKind::Register)
    } else {
        Some(FaultKind::BadNumber)
    }
}

fn unless(fits: bool, fault: FaultKind) -> Option<FaultKind>
    ensures { result ≡ (if fits then None else Some fault) }
{
    if fits { None } else { Some(fault) }
}

/// The fault of a word at its index.
pub fn misfit(place: Place, word: &[u8]) -> Option<FaultKind>
    ensures { result ≡ misfit place word.now }
{
    match place {
        Place::Number => unless(number(word).is_some(), FaultKind::BadNumber),
        Place::Destination => unless(register(word).is_some(), FaultKind::Register),
        Place::Operand => operand_misfit(word),
        Place::Operator => unless(operator(word).is_some(), FaultKind::UnknownWord),
        Place::Comparison => unless(comparison(word).is_some(), FaultKind::UnknownWord),
        Place::Name => unless(is_name(word), FaultKind::UnknownWord),
        Place::Depend => unless(same_word(word, b"depend"), FaultKind::UnknownWord),
        Place::Dependence { on_wait } => unless(
            is_type(on_wait, kind(word)),
            FaultKind::DependType,
        ),
        Place::Address { allows_all } => if is_all(word) {
            unless(allows_all, FaultKind::DependType)
        } else {
            operand_misfit(word)
        },
    }
}
