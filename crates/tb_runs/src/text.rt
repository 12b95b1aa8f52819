//! Whether a line is text.

ghost use Rattle.std.specs.Prelude.{◌≡◌};
ghost use Rattle.tb_read.specs.Text.{before_comment, is_text, is_text_byte};

use crate::words::is_blank;
use tb_read::{before_comment, is_text};

/// Whether the byte is of a text.
#[inline(always)]
fn is_text_byte(b: u8) -> bool
    ensures { result ≡ is_text_byte b }
{
    is_blank(b) || (32 <= b && b <= 126)
}

/// Whether each byte is of a text, without a branch after each.
fn are_text(bytes: &[u8]) -> bool
    ensures { result ≡ is_text bytes.now }
{
    let mut all = true;
    for at in 0..bytes.len() {
        all &= is_text_byte(bytes[at]);
    }
    all
}

/// Whether the bytes before the comment are text. Most lines are text to their end.
pub fn is_text_line(line: &[u8]) -> bool
    ensures { result ≡ is_text (before_comment line.now) }
{
    are_text(line) || is_text(before_comment(line))
}
