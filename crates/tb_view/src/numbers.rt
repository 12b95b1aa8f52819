//! The texts of the cells and of what was printed.

ghost use Rattle.std.specs.Prelude.{◌≡◌, ◌++◌, IfOk, OnOk, string_bytes, length};
ghost use Rattle.tb_view.specs.Numbers.{cell_line, cell_lines, cells_text, number_lines, out_text};
ghost use Rattle.tb_view.specs.Lines.{line};
ghost use Rattle.std.specs.Fmt.{signed_decimal};

use std::alloc::{AllocError, Global};
use tb_draft::Draft;

/// Appends the line of a cell, where its value isn't 0.
fn append_cell(text: &mut String, cell: usize, number: i64) -> Result<(), AllocError>
    ensures { OnOk result (string_bytes text.new ≡ string_bytes text.old ++ cell_line cell number) }
{
    if number == 0 {
        return Ok(());
    }
    writeln!(text, "{cell} {number}")
}

fn append_number(text: &mut String, number: i64) -> Result<(), AllocError>
    ensures { OnOk result (string_bytes text.new
        ≡ string_bytes text.old ++ line (signed_decimal number)) }
{
    writeln!(text, "{number}")
}

/// How many cells there are, and a line for each that isn't 0.
pub(crate) fn cells_text(alloc: Global, numbers: &[i64]) -> Result<Draft, AllocError>
    ensures { IfOk result (λ text. text ≡ cells_text numbers.now) }
{
    let count = numbers.len();
    let mut text = format!(in alloc; "cells {count}\n")?;
    for (cell, number) in numbers.iter().enumerate() {
        append_cell(&mut text, cell, *number)?;
    }
    Ok(Draft::of(alloc, text))
}

/// How many values were printed, and each on a line.
pub(crate) fn out_text(alloc: Global, numbers: &[i64]) -> Result<Draft, AllocError>
    ensures { IfOk result (λ text. text ≡ out_text numbers.now) }
{
    let count = numbers.len();
    let mut text = format!(in alloc; "out {count}\n")?;
    for number in numbers {
        append_number(&mut text, *number)?;
    }
    Ok(Draft::of(alloc, text))
}
