//! Reads what a line asks for.

ghost use Rattle.std.specs.Prelude.{◌≡◌, ◌∷◌, [], IfOk, map};
ghost use Rattle.tb_commands.specs.Commands.{asked_of, asked_words, asked, named, numbered, number_within, task_of, step_of, start_of, is_bad_line};
ghost use Rattle.tb_commands.specs.declared.command.Command.TheVariants as command;
ghost use Rattle.tb_commands.specs.declared.target.Target.TheVariants as target;
ghost use Rattle.tb_commands.specs.declared.asked.Asked.TheVariants as answer;
ghost use Rattle.tb_view.specs.declared.view.View.TheVariants as view;

use crate::asked::{Asked, CommandFault};
use crate::command::{Command, Verb};
use crate::number::read_number;
use crate::spelling::{read_name, read_step_id};
use crate::stopping::{LAST_CELL, MOST_STEPS, asked_break, asked_go};
use crate::target::Target;
use crate::verbs::verb_of;
use crate::workers::Workers;
use std::alloc::{AllocError, Global};
use tb_model::StepId;
use tb_read::{before_comment, is_text, line_words, same_word};
use tb_view::View;

/// The most bytes of a line, without its line feed.
const LINE_LIMIT: usize = 1024;

/// The greatest number of a breakpoint.
const LAST_BREAK: u32 = 1_000_000;

fn asked_step(alloc: Global, word: &[u8]) -> Result<Asked, AllocError>
    ensures { IfOk result (λ a. a ≡ named (task_of word.now) command.Step) }
{
    match read_name(alloc, word)? {
        Some(task) => Ok(Asked::Command(Command::Step { task })),
        None => Ok(Asked::Fault(CommandFault::Name)),
    }
}

fn asked_undo(alloc: Global, word: &[u8]) -> Result<Asked, AllocError>
    ensures { IfOk result (λ a. a ≡ named (step_of word.now) command.Undo) }
{
    match read_step_id(alloc, word)? {
        Some(id) => Ok(Asked::Command(Command::Undo { id })),
        None => Ok(Asked::Fault(CommandFault::Name)),
    }
}

fn asked_roll(alloc: Global, word: &[u8]) -> Result<Asked, AllocError>
    ensures { IfOk result (λ a. a ≡ named (step_of word.now) (λ id. command.Roll (target.Step id))) }
{
    match read_step_id(alloc, word)? {
        Some(id) => Ok(Asked::Command(Command::Roll {
            target: Target::Step { id },
        })),
        None => Ok(Asked::Fault(CommandFault::Name)),
    }
}

fn asked_roll_task(alloc: Global, word: &[u8]) -> Result<Asked, AllocError>
    ensures { IfOk result (λ a. a ≡ named (task_of word.now)
        (λ t. command.Roll (target.Step (start_of t)))) }
{
    match read_name(alloc, word)? {
        Some(task) => Ok(Asked::Command(Command::Roll {
            target: Target::Step {
                id: StepId { task, k: 1 },
            },
        })),
        None => Ok(Asked::Fault(CommandFault::Name)),
    }
}

fn asked_roll_cell(word: &[u8]) -> Asked
    ensures { result ≡ numbered (number_within 65535 word.now)
        (λ c. command.Roll (target.LastStore c)) }
{
    match read_number(word, LAST_CELL) {
        Some(cell) => Asked::Command(Command::Roll {
            target: Target::LastStore { cell },
        }),
        None => Asked::Fault(CommandFault::Number),
    }
}

fn asked_run(word: &[u8]) -> Asked
    ensures { result ≡ numbered (number_within 1000000 word.now) command.Run }
{
    match read_number(word, MOST_STEPS) {
        Some(most) => Asked::Command(Command::Run { most }),
        None => Asked::Fault(CommandFault::Number),
    }
}

fn asked_clear(word: &[u8]) -> Asked
    ensures { result ≡ numbered (number_within 1000000 word.now) command.Clear }
{
    match read_number(word, LAST_BREAK) {
        Some(number) => Asked::Command(Command::Clear { number }),
        None => Asked::Fault(CommandFault::Number),
    }
}

fn asked_view(shows: View) -> Asked
    ensures { result ≡ answer.Command (command.Show shows) }
{
    Asked::Command(Command::Show { view: shows })
}

fn asked_why(alloc: Global, word: &[u8]) -> Result<Asked, AllocError>
    ensures { IfOk result (λ a. a ≡ named (step_of word.now) (λ id. command.Show (view.Why id))) }
{
    match read_step_id(alloc, word)? {
        Some(id) => Ok(asked_view(View::Why { id })),
        None => Ok(Asked::Fault(CommandFault::Name)),
    }
}

fn asked_causes(alloc: Global, word: &[u8]) -> Result<Asked, AllocError>
    ensures { IfOk result (λ a. a ≡ named (step_of word.now) (λ id. command.Show (view.Causes id))) }
{
    match read_step_id(alloc, word)? {
        Some(id) => Ok(asked_view(View::Causes { id })),
        None => Ok(Asked::Fault(CommandFault::Name)),
    }
}

fn asked_who(alloc: Global, word: &[u8]) -> Result<Asked, AllocError>
    ensures { IfOk result (λ a. a ≡ named (step_of word.now) (λ id. command.Show (view.Who id))) }
{
    match read_step_id(alloc, word)? {
        Some(id) => Ok(asked_view(View::Who { id })),
        None => Ok(Asked::Fault(CommandFault::Name)),
    }
}

fn asked_task(alloc: Global, word: &[u8]) -> Result<Asked, AllocError>
    ensures { IfOk result (λ a. a ≡ named (task_of word.now) (λ t. command.Show (view.Task t))) }
{
    match read_name(alloc, word)? {
        Some(task) => Ok(asked_view(View::Task { task })),
        None => Ok(Asked::Fault(CommandFault::Name)),
    }
}

fn asked_deps(alloc: Global, word: &[u8]) -> Result<Asked, AllocError>
    ensures { IfOk result (λ a. a ≡ named (task_of word.now) (λ t. command.Show (view.Deps t))) }
{
    match read_name(alloc, word)? {
        Some(task) => Ok(asked_view(View::Deps { task })),
        None => Ok(Asked::Fault(CommandFault::Name)),
    }
}

/// What a command with no word after it asks for.
fn asked_alone(verb: Verb) -> Asked
    ensures { result ≡ asked_of verb [] }
{
    match verb {
        Verb::RollPrint => Asked::Command(Command::Roll {
            target: Target::LastPrint,
        }),
        Verb::Tasks => asked_view(View::Tasks),
        Verb::Cells => asked_view(View::Cells),
        Verb::Out => asked_view(View::Out),
        Verb::Ready => asked_view(View::Ready),
        Verb::Waits => asked_view(View::Waits),
        Verb::Hist => asked_view(View::Hist),
        Verb::Races => asked_view(View::Races),
        Verb::Edges => asked_view(View::Edges),
        Verb::Breaks => asked_view(View::Breaks),
        _ => Asked::Fault(CommandFault::Count),
    }
}

/// What a command with this word after it asks for.
fn asked_with(alloc: Global, verb: Verb, word: &[u8]) -> Result<Asked, AllocError>
    ensures { IfOk result (λ a. a ≡ asked_of verb (word.now ∷ [])) }
{
    match verb {
        Verb::Step => asked_step(alloc, word),
        Verb::Undo => asked_undo(alloc, word),
        Verb::Roll => asked_roll(alloc, word),
        Verb::RollTask => asked_roll_task(alloc, word),
        Verb::RollCell => Ok(asked_roll_cell(word)),
        Verb::Run => Ok(asked_run(word)),
        Verb::Clear => Ok(asked_clear(word)),
        Verb::Task => asked_task(alloc, word),
        Verb::Deps => asked_deps(alloc, word),
        Verb::Why => asked_why(alloc, word),
        Verb::Causes => asked_causes(alloc, word),
        Verb::Who => asked_who(alloc, word),
        _ => Ok(Asked::Fault(CommandFault::Count)),
    }
}

/// What a command with these words after it asks for.
#[tactic(auto, using(crate::proofs::CommandLemmas::too_many))]
fn asked_of(alloc: Global, verb: Verb, words: &[&[u8]]) -> Result<Asked, AllocError>
    ensures { IfOk result (λ a. a ≡ asked_of verb (map (λ word. word.now) words.now)) }
{
    match words {
        [] => Ok(asked_alone(verb)),
        [word] => asked_with(alloc, verb, word),
        [_, _, ..] => Ok(Asked::Fault(CommandFault::Count)),
    }
}

/// What a line of this word and others after it asks for.
fn asked_words(
    alloc: Global,
    limit: Workers,
    word: &[u8],
    words: &[&[u8]],
) -> Result<Asked, AllocError>
    ensures { IfOk result (λ a. a ≡ asked_words limit word.now (map (λ word. word.now) words.now)) }
{
    if same_word(word, b"break") {
        return asked_break(alloc, words);
    }
    if same_word(word, b"go") {
        return Ok(asked_go(limit, words));
    }
    match verb_of(word) {
        Some(verb) => asked_of(alloc, verb, words),
        None => Ok(Asked::Fault(CommandFault::Word)),
    }
}

fn is_bad_line(line: &[u8]) -> bool
    ensures { result ≡ is_bad_line line.now }
{
    LINE_LIMIT < line.len() || !is_text(before_comment(line))
}

/// What a line asks for, where `go` may name so many workers.
pub fn read_line(alloc: Global, limit: Workers, line: &[u8]) -> Result<Asked, AllocError>
    ensures { IfOk result (λ a. a ≡ asked limit line.now) }
{
    let words = line_words(alloc, line)?;
    match words.as_slice() {
        [] => Ok(Asked::Nothing),
        [_, ..] if is_bad_line(line) => Ok(Asked::Fault(CommandFault::Line)),
        [word, rest @ ..] => asked_words(alloc, limit, word, rest),
    }
}
