//! Texts that are one after the other, and what the reader says of each.

ghost use Rattle.std.specs.Prelude.{◌≢◌, ◌<◌, ◌≤◌, [], length};

use crate::statement_text::append_statement;
use std::alloc::{AllocError, Global};
use tb_model::Statement;
use tb_plan::Instr;
use tb_read::{Program, read};

/// The index of the next line feed, or the end.
fn line_end(bytes: &[u8]) -> usize
    ensures { result ≤ length bytes.now }
{
    bytes.iter().take_while(|b| **b != b'\n').count()
}

/// The bytes after an index.
fn behind(bytes: &[u8], at: usize) -> &[u8]
    ensures { bytes.now ≢ [] → length result.now < length bytes.now }
{
    if at < bytes.len() {
        &bytes[at + 1..]
    } else {
        &[]
    }
}

/// The first `at` bytes, as far as they are there, and those after them.
fn divided(bytes: &[u8], at: usize) -> (&[u8], &[u8])
    ensures { length result.1.now ≤ length bytes.now }
{
    let at = at.min(bytes.len());
    (&bytes[..at], &bytes[at..])
}

fn number(bytes: &[u8]) -> usize {
    match str::from_utf8(bytes) {
        Ok(text) => text.parse().unwrap_or(0),
        Err(_) => 0,
    }
}

/// The texts: each has a line with the number of its bytes in front of it.
pub(crate) fn texts(alloc: Global, bytes: &[u8]) -> Result<Vec<&[u8]>, AllocError> {
    let mut texts = Vec::new(alloc);
    let mut rest = bytes;
    while !rest.is_empty() {
        let end = line_end(rest);
        let (text, others) = divided(behind(rest, end), number(&rest[..end]));
        texts.push(text)?;
        rest = others;
    }
    Ok(texts)
}

/// How many lines a text has at most.
fn line_count(text: &[u8]) -> usize {
    let feeds = text.iter().filter(|b| **b == b'\n').count();
    feeds.saturating_add(1)
}

/// The fault of a text, or its program: the cells that don't begin at 0, the bodies, and each
/// instruction by its line with the lines that follow.
pub(crate) fn answer(alloc: Global, text: &[u8]) -> Result<String, AllocError> {
    let mut answer = String::new(alloc);
    match read(alloc, text) {
        Err(fault) => writeln!(answer, "{fault}")?,
        Ok(program) => append_program(&mut answer, line_count(text), &program)?,
    }
    Ok(answer)
}

fn append_program(answer: &mut String, lines: usize, program: &Program) -> Result<(), AllocError> {
    writeln!(
        answer,
        "program {} {}",
        program.cells().len(),
        program.root_line()
    )?;
    for (cell, number) in program.cells().iter().enumerate() {
        if *number != 0 {
            writeln!(answer, "cell {cell} {number}")?;
        }
    }
    for line in 0u32..65537 {
        if lines < line as usize {
            break;
        }
        if let Some(instr) = program.instr(line) {
            append_name(answer, program, instr)?;
            append_instr(answer, instr)?;
        }
    }
    Ok(())
}

/// The name of the body that the instruction begins, where it begins one.
fn append_name(answer: &mut String, program: &Program, instr: &Instr) -> Result<(), AllocError> {
    if let Statement::Start = &instr.statement {
        if let Some(name) = program.body_name(instr.line) {
            writeln!(answer, "body {} {name}", instr.line)?;
        }
    }
    Ok(())
}

fn append_instr(answer: &mut String, instr: &Instr) -> Result<(), AllocError> {
    write!(answer, "{} {} {} ", instr.line, instr.next, instr.otherwise)?;
    append_statement(answer, &instr.statement)?;
    writeln!(answer)
}
