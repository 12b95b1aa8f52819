//! The line between a program and its commands.

ghost use Rattle.std.specs.Prelude.{◌≡◌, IfOk};
ghost use Rattle.tb_session.specs.Divider.{is_divider};

use std::alloc::{AllocError, Global};
use tb_read::{begins_with, line_words, same_word};

/// Whether the only word of the line is `---`.
pub fn is_divider(alloc: Global, line: &[u8]) -> Result<bool, AllocError>
    ensures { IfOk result (λ divides. divides ≡ is_divider line.now) }
{
    if !begins_with(line, b'-') {
        return Ok(false);
    }
    let words = line_words(alloc, line)?;
    match words.as_slice() {
        [word] => Ok(same_word(word, b"---")),
        _ => Ok(false),
    }
}
