//! The breakpoints, as text.

ghost use Rattle.std.specs.Prelude.{◌≡◌, ◌++◌, IfOk, OnOk, string_bytes};
ghost use Rattle.tb_view.specs.Listing.{joined};
ghost use Rattle.tb_view.specs.Breaks.{break_text, break_line, breaks_text};

use crate::step_line::body_name;
use std::alloc::{AllocError, Global};
use tb_draft::Draft;
use tb_live::{Break, Breakpoint};
use tb_model::append_number;
use tb_read::Program;

/// Appends what a breakpoint waits for.
fn append_break(text: &mut String, program: &Program, at: &Break) -> Result<(), AllocError>
    ensures { OnOk result (string_bytes text.new
        ≡ string_bytes text.old ++ break_text program.now at.now) }
{
    match at {
        Break::Task(task) => {
            text.push_str("task ")?;
            task.print(text)
        }
        Break::Cell(cell) => {
            text.push_str("cell ")?;
            append_number(text, *cell)
        }
        Break::Body(begins) => {
            text.push_str("body ")?;
            text.push_str(body_name(program, *begins))
        }
        Break::Print => text.push_str("print"),
        Break::Fault => text.push_str("fault"),
    }
}

/// Appends the line of a breakpoint.
fn append_breakpoint(
    text: &mut String,
    program: &Program,
    breakpoint: &Breakpoint,
) -> Result<(), AllocError>
    ensures { OnOk result (string_bytes text.new
        ≡ string_bytes text.old ++ joined (break_line program.now breakpoint.now)) }
{
    append_number(text, breakpoint.number)?;
    text.push(' ')?;
    append_break(text, program, &breakpoint.at)?;
    text.push('\n')
}

/// How many breakpoints there are, and the line of each.
pub(crate) fn breaks_text(
    alloc: Global,
    program: &Program,
    breakpoints: &[Breakpoint],
) -> Result<Draft, AllocError>
    ensures { IfOk result (λ text. text
        ≡ breaks_text program.now breakpoints.now) }
{
    let count = breakpoints.len();
    let mut text = format!(in alloc; "breaks {count}\n")?;
    'breakpoints: for breakpoint in breakpoints {
        append_breakpoint(&mut text, program, breakpoint)?;
    }
    Ok(Draft::of(alloc, text))
}
