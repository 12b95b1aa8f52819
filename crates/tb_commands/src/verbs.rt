//! The first words of commands.

ghost use Rattle.std.specs.Prelude.{◌≡◌};
ghost use Rattle.tb_commands.specs.Commands.{verb_of, view_verb};

use crate::command::Verb;
use tb_read::same_word;

/// The view that a word names.
fn view_verb(word: &[u8]) -> Option<Verb>
    ensures { result ≡ view_verb word.now }
{
    if same_word(word, b"tasks") {
        Some(Verb::Tasks)
    } else if same_word(word, b"task") {
        Some(Verb::Task)
    } else if same_word(word, b"cells") {
        Some(Verb::Cells)
    } else if same_word(word, b"out") {
        Some(Verb::Out)
    } else if same_word(word, b"ready") {
        Some(Verb::Ready)
    } else if same_word(word, b"waits") {
        Some(Verb::Waits)
    } else if same_word(word, b"deps") {
        Some(Verb::Deps)
    } else if same_word(word, b"hist") {
        Some(Verb::Hist)
    } else if same_word(word, b"why") {
        Some(Verb::Why)
    } else if same_word(word, b"causes") {
        Some(Verb::Causes)
    } else if same_word(word, b"who") {
        Some(Verb::Who)
    } else if same_word(word, b"races") {
        Some(Verb::Races)
    } else if same_word(word, b"edges") {
        Some(Verb::Edges)
    } else if same_word(word, b"breaks") {
        Some(Verb::Breaks)
    } else {
        None
    }
}

/// The command that a word begins, where it is none of `break` and `go`.
pub fn verb_of(word: &[u8]) -> Option<Verb>
    ensures { result ≡ verb_of word.now }
{
    if same_word(word, b"step") {
        Some(Verb::Step)
    } else if same_word(word, b"undo") {
        Some(Verb::Undo)
    } else if same_word(word, b"roll") {
        Some(Verb::Roll)
    } else if same_word(word, b"rolltask") {
        Some(Verb::RollTask)
    } else if same_word(word, b"rollcell") {
        Some(Verb::RollCell)
    } else if same_word(word, b"rollprint") {
        Some(Verb::RollPrint)
    } else if same_word(word, b"run") {
        Some(Verb::Run)
    } else if same_word(word, b"clear") {
        Some(Verb::Clear)
    } else {
        view_verb(word)
    }
}
