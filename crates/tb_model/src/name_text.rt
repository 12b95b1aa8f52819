//! Names as bytes: how they are written, and how bytes fall into ordinals.

ghost use Rattle.std.specs.Prelude.{◌≡◌, ◌<◌, ◌≤◌, ◌++◌, ◌+◌, ◌-◌, true, false, OnOk, OnErr, IfSome, IfNone, drop, length, string_bytes};
ghost use Rattle.std.specs.List.{list_all};
ghost use Rattle.tb_model.specs.Spelling.{name_text, levels_text, is_digit, spells_name, is_zero, IsLastPart};
ghost use Rattle.tb_model.specs.Texts.{Begins};

use crate::number_text::append_number;
use crate::ordinal::ordinal;
use crate::parts::Parts;
use std::alloc::AllocError;

/// How many levels of one digit each are appended at once.
const LEVELS: usize = 16;

/// Appends the name with these ordinals, the task's own first. Some of it may stay where memory
/// runs out.
pub(crate) fn append_name(text: &mut String, numbers: &Parts<'_>) -> Result<(), AllocError>
    ensures ok { OnOk result (string_bytes text.new ≡ string_bytes text.old ++ name_text numbers.now) }
    ensures begins { Begins (string_bytes text.old) (string_bytes text.new) }
{
    text.push('0')?;
    let mut rest = numbers.far;
    'blocks: while let [block, more @ ..] = rest {
        append_levels(text, block.as_slice())?;
        rest = more;
    }
    append_levels(text, numbers.near.as_slice())
}

/// Appends the levels of these ordinals, after the name of the task that the last of them is a
/// child of. Some of them may stay where memory runs out.
fn append_levels(text: &mut String, numbers: &[u32]) -> Result<(), AllocError>
    ensures ok { OnOk result (string_bytes text.new ≡ string_bytes text.old ++ levels_text numbers.now) }
    ensures begins { Begins (string_bytes text.old) (string_bytes text.new) }
{
    let mut rest = numbers;
    'levels: while let [front @ .., n] = rest {
        match digits_at(rest) {
            Some(at) => {
                append_digits(text, &rest[at..])?;
                rest = &rest[..at];
            }
            None => {
                text.push('.')?;
                append_number(text, *n)?;
                rest = front;
            }
        }
    }
    Ok(())
}

/// Where the last sixteen ordinals begin, if there are as many and each has one digit: deep names
/// are mostly of such.
pub fn digits_at(numbers: &[u32]) -> Option<usize>
    ensures some { IfSome result (λ at. (at + 16 ≡ length numbers.now) × (list_all is_digit (drop at numbers.now) ≡ true)) }
    ensures none { IfNone result (16 ≤ length numbers.now → list_all is_digit (drop (length numbers.now - 16) numbers.now) ≡ false) }
{
    if numbers.len() < LEVELS {
        return None;
    }
    let at = numbers.len() - LEVELS;
    if are_digits(&numbers[at..]) {
        Some(at)
    } else {
        None
    }
}

/// Whether each of sixteen numbers has one digit, without a branch after each.
#[inline]
fn are_digits(numbers: &[u32]) -> bool
    requires { length numbers.now ≡ 16 }
    ensures { result ≡ list_all is_digit numbers.now }
{
    let mut all = true;
    for i in 0..LEVELS {
        all &= numbers[i] < 10;
    }
    all
}

/// Sixteen levels of one digit each, as text: the last of these first.
pub fn digit_levels(numbers: &[u32]) -> [u8; 32]
    requires sixteen { length numbers.now ≡ 16 }
    requires digits { list_all is_digit numbers.now ≡ true }
    ensures { result ≡ levels_text numbers.now }
{
    let mut levels = [b'.'; 32];
    for i in 0..LEVELS {
        levels[2 * i] = b'.';
        levels[2 * i + 1] = b'0' + numbers[LEVELS - 1 - i] as u8;
    }
    levels
}

/// Appends these levels.
fn append_digits(text: &mut String, numbers: &[u32]) -> Result<(), AllocError>
    requires sixteen { length numbers.now ≡ 16 }
    requires digits { list_all is_digit numbers.now ≡ true }
    ensures ok { OnOk result (string_bytes text.new ≡ string_bytes text.old ++ levels_text numbers.now) }
    ensures err { OnErr result (string_bytes text.new ≡ string_bytes text.old) }
{
    let levels = digit_levels(numbers);
    // each byte is a point or a digit
    text.push_str(unsafe { str::from_utf8_unchecked(&levels) })
}

/// Where the part after the last dot begins.
pub(crate) fn last_part(text: &[u8]) -> usize
    ensures { IsLastPart text.now result }
{
    let mut at = text.len();
    'bytes: while at > 0 && text[at - 1] != b'.' {
        at -= 1;
    }
    at
}

/// Whether the text spells a name.
pub(crate) fn spells_name(text: &[u8]) -> bool
    ensures { result ≡ spells_name text.now }
{
    let mut rest = text;
    let mut at = last_part(rest);
    'parts: while at > 0 {
        match ordinal(&rest[at..]) {
            None => return false,
            Some(_) => {}
        }
        rest = &rest[..at - 1];
        at = last_part(rest);
    }
    is_zero(rest)
}

fn is_zero(part: &[u8]) -> bool
    ensures { result ≡ is_zero part.now }
{
    matches!(part, [b'0'])
}
