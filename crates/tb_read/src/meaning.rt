//! What the lines mean.

ghost use Rattle.std.specs.Prelude.{◌≡◌, ℕ, List, slice_get, ◌<◌, ◌==◌, ◌≤◌, IsTrue, IfOk, IfSome, Some, None, map, length, take};
ghost use Rattle.std.specs.List.{list_all};
ghost use Rattle.tb_plan.specs.Statements.{is_sound, is_sound_operand, is_sound_address, is_sound_clause, is_sound_condition, is_sound_test};
ghost use Rattle.tb_read.specs.Clauses.{operand_in, comparison_in, condition_in, address_in, clause_in, args_of, clauses_of, test_of};
ghost use Rattle.tb_read.specs.Context.{Setting};
ghost use Rattle.tb_read.specs.Flow.{Line as AnyLine};
ghost use Rattle.tb_read.specs.Flow.Line.{Stands as IsStanding};
ghost use Rattle.tb_read.specs.Headings.{heading_of};
ghost use Rattle.tb_read.specs.Meaning.{register_at, operand_at, operator_at, let_of, test_in, line_of, task_of, end_of, line_by};
ghost use Rattle.tb_read.specs.Shown.{shown_line};

use crate::block::Block;
use crate::clauses::{arguments, begins_test, clause_words};
use crate::context::Lines;
use crate::head::Head;
use crate::heading::{Heading, Headings};
use crate::line::Line;
use crate::parsed::Parsed;
use crate::word::{comparison, is_all, kind, operand, operator, register, word_at};
use std::alloc::{AllocError, Global};
use tb_model::{
    Address, Clause, Clauses, Comparison, Condition, IfClause, Kind, Operand, Operands, Operator,
    Statement,
};

fn register_at(words: &[&[u8]], at: usize) -> u8
    ensures register { result ≡ register_at (map (λ word. word.now) words.now) at }
    ensures within { result < 16 }
{
    register(word_at(words, at)).unwrap_or(0)
}

fn operand_in(word: &[u8]) -> Operand
    ensures operand { result ≡ operand_in word.now }
    ensures sound { IsTrue (is_sound_operand result) }
{
    operand(word).unwrap_or(Operand::Number(0))
}

fn operand_at(words: &[&[u8]], at: usize) -> Operand
    ensures operand { result ≡ operand_at (map (λ word. word.now) words.now) at }
    ensures sound { IsTrue (is_sound_operand result) }
{
    operand_in(word_at(words, at))
}

fn operator_at(words: &[&[u8]], at: usize) -> Operator
    ensures { result ≡ operator_at (map (λ word. word.now) words.now) at }
{
    operator(word_at(words, at)).unwrap_or(Operator::Plus)
}

fn let_of(words: &[&[u8]]) -> Statement
    ensures statement { result ≡ let_of (map (λ word. word.now) words.now) }
    ensures sound { IsTrue (is_sound result) }
{
    let reg = register_at(words, 0);
    let first = operand_at(words, 1);
    if words.len() == 2 {
        Statement::Let { reg, value: first }
    } else {
        Statement::Compute {
            reg,
            left: first,
            operator: operator_at(words, 2),
            right: operand_at(words, 3),
        }
    }
}

fn condition_in(left: &[u8], compared: &[u8], right: &[u8]) -> Condition
    ensures condition { result ≡ condition_in left.now compared.now right.now }
    ensures sound { IsTrue (is_sound_condition result) }
{
    Condition {
        left: operand_in(left),
        comparison: comparison(compared).unwrap_or(Comparison::Equal),
        right: operand_in(right),
    }
}

/// An `if` or a `while`.
fn test_in(words: &[&[u8]]) -> Statement
    ensures statement { result ≡ test_in (map (λ word. word.now) words.now) }
    ensures sound { IsTrue (is_sound result) }
{
    Statement::Test {
        condition: condition_in(word_at(words, 0), word_at(words, 1), word_at(words, 2)),
    }
}

fn address_in(word: &[u8]) -> Address
    ensures address { result ≡ address_in word.now }
    ensures sound { IsTrue (is_sound_address result) }
{
    if is_all(word) {
        Address::All
    } else {
        Address::Cell(operand_in(word))
    }
}

fn clause_in(type_word: &[u8], address: &[u8]) -> Clause
    ensures clause { result ≡ clause_in type_word.now address.now }
    ensures sound { IsTrue (is_sound_clause result) }
{
    Clause {
        kind: kind(type_word).unwrap_or(Kind::In),
        address: address_in(address),
    }
}

fn operands_of(alloc: Global, words: &[&[u8]]) -> Result<Operands, AllocError>
    ensures operands { IfOk result (λ operands. operands ≡ map operand_in (map (λ word. word.now) words.now)) }
    ensures sound { IfOk result (λ operands. IsTrue (list_all is_sound_operand operands)) }
{
    let mut operands = Operands::new(alloc);
    for word in words {
        operands.push(operand_in(word))?;
    }
    Ok(operands)
}

fn up_to_16<'w, 'a>(words: &'w [&'a [u8]]) -> &'w [&'a [u8]]
    ensures words { map (λ word. word.now) result.now ≡ take 16 (map (λ word. word.now) words.now) }
    ensures few { length result.now ≤ 16 }
{
    if words.len() <= 16 {
        words
    } else {
        &words[..16]
    }
}

/// The arguments among the words after a `task` line's name, of which no more than 16 count.
fn args_of(alloc: Global, words: &[&[u8]]) -> Result<Operands, AllocError>
    ensures args { IfOk result (λ args. args ≡ args_of (map (λ word. word.now) words.now)) }
    ensures sound { IfOk result (λ args. IsTrue (list_all is_sound_operand args)) }
    ensures few { IfOk result (λ args. length args ≤ 16) }
{
    operands_of(alloc, up_to_16(arguments(words)))
}

fn clauses_of(alloc: Global, on_wait: bool, words: &[&[u8]]) -> Result<Clauses, AllocError>
    ensures clauses { IfOk result (λ clauses. clauses ≡ clauses_of on_wait (map (λ word. word.now) words.now)) }
    ensures sound { IfOk result (λ clauses. IsTrue (list_all is_sound_clause clauses)) }
{
    let mut clauses = Clauses::new(alloc);
    let mut left = words;
    while let [word, kind, address, rest @ ..] = left {
        if begins_test(on_wait, word) {
            return Ok(clauses);
        }
        clauses.push(clause_in(kind, address))?;
        left = rest;
    }
    Ok(clauses)
}

/// The test of an `if` clause.
fn test_of(words: &[&[u8]]) -> Option<Condition>
    ensures test { result ≡ test_of (map (λ word. word.now) words.now) }
    ensures sound { IsTrue (is_sound_test result) }
{
    let mut left = words;
    while let [word, first, compared, rest @ ..] = left {
        if begins_test(false, word) {
            return Some(condition_in(first, compared, word_at(rest, 0)));
        }
        left = rest;
    }
    None
}

/// The line of a heading, 0 where it is too far down for any text that is accepted.
pub fn line_of(heading: Option<Heading>) -> u32
    ensures { result ≡ line_of heading }
{
    match heading {
        Some(heading) if heading.line <= 65536 => heading.line as u32,
        _ => 0,
    }
}

fn task_of(alloc: Global, headings: &Headings<'_>, words: &[&[u8]]) -> Result<Statement, AllocError>
    ensures statement { IfOk result (λ s. (line : ℕ) → s ≡ task_of (record { line = line; heading = heading_of headings.now }) (map (λ word. word.now) words.now)) }
    ensures sound { IfOk result (λ s. IsTrue (is_sound s)) }
{
    match words {
        [] => Ok(Statement::Task {
            body: 0,
            args: Operands::new(alloc),
            depends: Clauses::new(alloc),
            condition: IfClause::none(),
        }),
        [name, rest @ ..] => {
            let clauses = clause_words(rest);
            Ok(Statement::Task {
                body: line_of(headings.get(name)),
                args: args_of(alloc, rest)?,
                depends: clauses_of(alloc, false, clauses)?,
                condition: IfClause::new(alloc, test_of(clauses))?,
            })
        }
    }
}

fn stands(statement: Statement) -> Line
    requires { IsTrue (is_sound statement) }
    ensures { shown_line result ≡ IsStanding statement }
{
    Line::Stands(Parsed { statement })
}

/// What an `end` is, by the block that it closes.
fn end_of(block: Option<Block>) -> Line
    ensures { (blocks : List Block) → block ≡ slice_get blocks 0 → shown_line result ≡ end_of blocks }
{
    match block {
        None => Line::Passed,
        Some(Block::Bodied { .. }) => stands(Statement::End),
        Some(Block::Tested) => Line::EndIf,
        Some(Block::Turned) => Line::EndIf,
        Some(Block::Looped { line }) => Line::EndWhile(line),
        Some(Block::Grouped) => stands(Statement::EndTaskgroup),
    }
}

/// What a line with this first word is, after those so far.
pub fn line_by(
    alloc: Global,
    headings: &Headings<'_>,
    before: &Lines,
    head: Head,
    words: &[&[u8]],
) -> Result<Line, AllocError>
    ensures { IfOk result (λ l. (line : ℕ) → shown_line l ≡ line_by (record { line = line; heading = heading_of headings.now }) before.now (Some head) (map (λ word. word.now) words.now)) }
{
    Ok(match head {
        Head::Cells | Head::Cell => Line::Passed,
        Head::Body => stands(Statement::Start),
        Head::End => end_of(before.innermost()),
        Head::Let => stands(let_of(words)),
        Head::Load => stands(Statement::Load {
            reg: register_at(words, 0),
            address: operand_at(words, 1),
        }),
        Head::Store => stands(Statement::Store {
            address: operand_at(words, 0),
            value: operand_at(words, 1),
        }),
        Head::Print => stands(Statement::Print {
            value: operand_at(words, 0),
        }),
        Head::Task => stands(task_of(alloc, headings, words)?),
        Head::Taskwait => stands(Statement::Taskwait {
            depends: clauses_of(alloc, true, words)?,
        }),
        Head::Taskgroup => stands(Statement::Taskgroup),
        Head::If | Head::While => stands(test_in(words)),
        Head::Else => Line::Else,
    })
}
