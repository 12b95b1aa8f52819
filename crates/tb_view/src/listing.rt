//! Lists of lines after a word and their number.

ghost use Rattle.std.specs.Prelude.{◌≡◌, ◌++◌, IfOk, OnOk, codes};
ghost use Rattle.std.specs.Fmt.{decimal};
ghost use Rattle.tb_view.specs.Lines.{line};

use std::alloc::{AllocError, Global};
use tb_draft::Draft;

/// Appends the line of the word and of a number.
pub(crate) fn append_count(
    alloc: Global,
    text: &mut Draft,
    word: &str,
    count: usize,
) -> Result<(), AllocError>
    ensures { OnOk result (text.new ≡ text.old ++ line (word.now ++ codes " " ++ decimal count)) }
{
    let line = format!(in alloc; "{word} {count}\n")?;
    text.push_str(line.as_str())
}

/// Puts the word and the number of the lines in front of them; of these the text in front of the first long name is moved, once.
pub(crate) fn headed(
    alloc: Global,
    word: &str,
    count: usize,
    mut lines: Draft,
) -> Result<Draft, AllocError>
    ensures { IfOk result (λ text. text ≡ line (word.now ++ codes " " ++ decimal count) ++ lines) }
{
    let head = format!(in alloc; "{word} {count}\n")?;
    lines.prepend(head.as_str())?;
    Ok(lines)
}
