//! Makes breakpoints and takes them away.

ghost use Rattle.std.specs.Prelude.{◌≡◌, IfOk};
ghost use Rattle.tb_replies.specs.Bodies.{body_line, is_named};
ghost use Rattle.tb_read.specs.Bodies.{name_at};
ghost use Rattle.tb_replies.specs.Refusals.{break_refusal, clear_refusal};
ghost use Rattle.tb_replies.specs.Replies.{BodyReply, BreakReply, ClearReply};

use crate::refusing::refused;
use std::alloc::{AllocError, Global};
use tb_draft::Draft;
use tb_live::{Break, BreakRefusal, Live};
use tb_read::{Program, same_word};

/// Whether the line begins the body of this name.
fn begins(program: &Program, line: u32, name: &[u8]) -> bool
    ensures { result ≡ is_named name.now (name_at line program.now.bodies) }
{
    match program.body_name(line) {
        Some(found) => same_word(found.as_bytes(), name),
        None => false,
    }
}

/// The line that begins the body of this name.
fn body_line(program: &Program, name: &[u8]) -> Option<u32>
    ensures { result ≡ body_line name.now program.now }
{
    let count = program.line_count();
    let mut line = 0;
    'lines: while line < count {
        if begins(program, line, name) {
            return Some(line);
        }
        line += 1;
    }
    None
}

/// Makes a breakpoint, and writes its number.
pub fn break_reply(alloc: Global, live: &mut Live, at: Break) -> Result<Draft, AllocError>
    ensures { IfOk result (λ text. BreakReply (break_refusal live.old.session at)
        live.old.session at text live.new.session) }
{
    match live.add_break(at) {
        Ok(number) => Ok(Draft::of(alloc, format!(in alloc; "break {number}\n")?)),
        Err(BreakRefusal::NoSuchBody) => refused(alloc, 3, "NoSuchBody"),
        Err(BreakRefusal::NoSuchCell) => refused(alloc, 4, "NoSuchCell"),
        Err(BreakRefusal::TooMany) => refused(alloc, 1, "TooMany"),
        Err(BreakRefusal::Memory) => Err(AllocError),
        Err(BreakRefusal::NoSuchBreak) => unreachable!(),
    }
}

/// Makes a breakpoint at the starts of tasks of the body with this name, and writes its number.
pub fn body_reply(alloc: Global, live: &mut Live, name: &[u8]) -> Result<Draft, AllocError>
    ensures { IfOk result (λ text. BodyReply (body_line name.now live.old.session.program)
        live.old.session text live.new.session) }
{
    match body_line(live.program(), name) {
        Some(line) => break_reply(alloc, live, Break::Body(line)),
        None => refused(alloc, 3, "NoSuchBody"),
    }
}

/// Takes a breakpoint away, and writes it.
pub fn clear_reply(alloc: Global, live: &mut Live, number: u32) -> Result<Draft, AllocError>
    ensures { IfOk result (λ text. ClearReply (clear_refusal live.old.session number)
        live.old.session number text live.new.session) }
{
    match live.clear_break(number) {
        Ok(()) => Ok(Draft::of(alloc, format!(in alloc; "cleared {number}\n")?)),
        Err(BreakRefusal::NoSuchBreak) => refused(alloc, 2, "NoSuchBreak"),
        Err(_) => unreachable!(),
    }
}
