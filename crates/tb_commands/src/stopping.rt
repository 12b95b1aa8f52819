//! Reads what `break` and `go` ask for.

ghost use Rattle.std.specs.Prelude.{◌≡◌, ◌∷◌, IfOk, map};
ghost use Rattle.tb_commands.specs.Commands.{break_of, go_of, named, numbered, number_within, positive, task_of, with_none, with_one};
ghost use Rattle.tb_commands.specs.declared.command.Command.TheVariants as command;
ghost use Rattle.tb_commands.specs.declared.asked.Asked.TheVariants as answer;
ghost use Rattle.tb_control.specs.declared.breaks.Break.TheVariants as point;

use crate::asked::{Asked, CommandFault};
use crate::command::Command;
use crate::number::read_number;
use crate::spelling::read_name;
use crate::word::Word;
use crate::workers::Workers;
use std::alloc::{AllocError, Global};
use tb_live::Break;
use tb_read::same_word;

/// The most steps that one `run` or `go` may ask for.
pub const MOST_STEPS: u32 = 1_000_000;

/// The greatest number of a cell.
pub const LAST_CELL: u32 = 65_535;

fn break_task(alloc: Global, words: &[&[u8]]) -> Result<Asked, AllocError>
    ensures { IfOk result (λ a. a ≡ with_one (map (λ word. word.now) words.now)
        (λ word. named (task_of word) (λ t. command.Break (point.Task t)))) }
{
    let [word] = words else {
        return Ok(Asked::Fault(CommandFault::Count));
    };
    match read_name(alloc, word)? {
        Some(task) => Ok(Asked::Command(Command::Break {
            at: Break::Task(task),
        })),
        None => Ok(Asked::Fault(CommandFault::Name)),
    }
}

fn break_cell(words: &[&[u8]]) -> Asked
    ensures { result ≡ with_one (map (λ word. word.now) words.now)
        (λ word. numbered (number_within 65535 word) (λ c. command.Break (point.Cell c))) }
{
    let [word] = words else {
        return Asked::Fault(CommandFault::Count);
    };
    match read_number(word, LAST_CELL) {
        Some(cell) => Asked::Command(Command::Break {
            at: Break::Cell(cell),
        }),
        None => Asked::Fault(CommandFault::Number),
    }
}

fn break_body(alloc: Global, words: &[&[u8]]) -> Result<Asked, AllocError>
    ensures { IfOk result (λ a. a ≡ with_one (map (λ word. word.now) words.now)
        (λ word. answer.Command (command.BreakBody word))) }
{
    let [word] = words else {
        return Ok(Asked::Fault(CommandFault::Count));
    };
    Ok(Asked::Command(Command::BreakBody {
        name: Word::new(alloc, word)?,
    }))
}

/// A breakpoint that no further word describes.
fn break_alone(at: Break, words: &[&[u8]]) -> Asked
    ensures { result ≡ with_none (map (λ word. word.now) words.now) (command.Break at) }
{
    match words {
        [] => Asked::Command(Command::Break { at }),
        [_, ..] => Asked::Fault(CommandFault::Count),
    }
}

/// What `break` with this word and others after it asks for.
fn break_at(alloc: Global, kind: &[u8], words: &[&[u8]]) -> Result<Asked, AllocError>
    ensures { IfOk result (λ a. a ≡ break_of (kind.now ∷ map (λ word. word.now) words.now)) }
{
    if same_word(kind, b"task") {
        break_task(alloc, words)
    } else if same_word(kind, b"cell") {
        Ok(break_cell(words))
    } else if same_word(kind, b"body") {
        break_body(alloc, words)
    } else if same_word(kind, b"print") {
        Ok(break_alone(Break::Print, words))
    } else if same_word(kind, b"fault") {
        Ok(break_alone(Break::Fault, words))
    } else {
        Ok(Asked::Fault(CommandFault::Word))
    }
}

/// What `break` with these words after it asks for.
pub fn asked_break(alloc: Global, words: &[&[u8]]) -> Result<Asked, AllocError>
    ensures { IfOk result (λ a. a ≡ break_of (map (λ word. word.now) words.now)) }
{
    match words {
        [] => Ok(Asked::Fault(CommandFault::Count)),
        [kind, words @ ..] => break_at(alloc, kind, words),
    }
}

/// How many workers the word spells, of at most so many.
fn read_workers(limit: Workers, word: &[u8]) -> Option<Workers>
    ensures { result ≡ positive (number_within limit word.now) }
{
    match read_number(word, limit.count()) {
        Some(0) => None,
        Some(count) => Some(Workers::new(count)),
        None => None,
    }
}

/// What `go` with these words after it asks for, where it may name so many workers.
pub fn asked_go(limit: Workers, words: &[&[u8]]) -> Asked
    ensures { result ≡ go_of limit (map (λ word. word.now) words.now) }
{
    let [workers, most] = words else {
        return Asked::Fault(CommandFault::Count);
    };
    let Some(workers) = read_workers(limit, workers) else {
        return Asked::Fault(CommandFault::Number);
    };
    match read_number(most, MOST_STEPS) {
        Some(most) => Asked::Go { workers, most },
        None => Asked::Fault(CommandFault::Number),
    }
}
