//! Levels of one digit each as text.

ghost use Rattle.std.specs.Prelude.{◌≡◌, [], ◌⊎◌};
ghost use Rattle.tb_model.specs.Spelling.{levels_text};

use crate::block::BLOCK;
use crate::name_text::{digit_levels, digits_at};
use arrayvec::ArrayVec;

/// How many bytes a block of levels of one digit each has as text.
pub(crate) const TEXT: usize = 2 * BLOCK;

/// The levels of a block as text, if each has one digit; else nothing.
pub(crate) fn spelled(numbers: &[u32; BLOCK]) -> ArrayVec<u8, TEXT>
    ensures { (result.items ≡ []) ⊎ (result.items ≡ levels_text numbers.now) }
{
    let mut text = ArrayVec::new();
    let mut rest: &[u32] = numbers;
    'levels: while !rest.is_empty() {
        let Some(at) = digits_at(rest) else {
            return ArrayVec::new();
        };
        let levels = digit_levels(&rest[at..]);
        let Ok(()) = text.try_extend_from_slice(&levels) else {
            return ArrayVec::new();
        };
        rest = &rest[..at];
    }
    text
}
