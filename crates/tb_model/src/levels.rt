//! The ordinals of a block.

ghost use Rattle.std.specs.Prelude.{◌≡◌, IfSome, length};
ghost use Rattle.tb_model.specs.Names.{same_name};
ghost use Rattle.tb_model.specs.Spelling.{levels_text};

use crate::block::BLOCK;
use crate::in_common::{are_bytes_same, are_same};
use crate::level_text::{TEXT, spelled};
use arrayvec::ArrayVec;
use std::marker::Model;

/// 128 ordinals of a deep name, as they are asked for: as ordinals, and where they are small as
/// bytes, which are compared sixteen at a time, and as text.
#[derive(Drop)]
pub(crate) struct Levels {
    numbers: [u32; BLOCK],
    /// The ordinals as bytes, where each is below 256.
    bytes: Option<[u8; BLOCK]>,
    /// How the ordinals are written, where each has one digit; else nothing.
    text: ArrayVec<u8, TEXT>,
}

impl Model for Levels {
    ghost use Rattle.std.specs.Prelude.{◌≡◌, List, ℕ, [], IfSome, ◌⊎◌};
    ghost use Rattle.tb_model.specs.Spelling.{levels_text};

    ghost Value = { List ℕ };

    ghost view = { λ l. l.numbers };

    ghost invariant = { λ l. IfSome l.bytes (λ b. b ≡ l.numbers) × ((l.text.items ≡ []) ⊎ (l.text.items ≡ levels_text l.numbers)) };
}

impl Levels {
    /// The levels of these ordinals, in each form that they have.
    pub fn new(numbers: [u32; BLOCK]) -> Levels
        ensures { result ≡ numbers }
    {
        Levels {
            numbers,
            bytes: narrowed(&numbers),
            text: spelled(&numbers),
        }
    }

    /// The ordinals, in order.
    pub fn as_slice(&self) -> &[u32]
        ensures is { result.now ≡ self.now }
        ensures full { length self.now ≡ 128 }
    {
        &self.numbers
    }

    /// Whether the ordinals are the same.
    pub fn is_same(&self, other: &Levels) -> bool
        ensures { result ≡ same_name self.now other.now }
    {
        match (&self.bytes, &other.bytes) {
            (Some(bytes), Some(others)) => are_bytes_same(bytes, others),
            _ => are_same(&self.numbers, &other.numbers),
        }
    }

    /// The levels of the numbers as text, where it is stored.
    pub fn text(&self) -> Option<&[u8]>
        ensures { IfSome result (λ t. t.now ≡ levels_text self.now) }
    {
        if self.text.is_empty() {
            None
        } else {
            Some(self.text.as_slice())
        }
    }
}

/// The ordinals as bytes, if each is below 256.
fn narrowed(numbers: &[u32; BLOCK]) -> Option<[u8; BLOCK]>
    ensures { IfSome result (λ b. b ≡ numbers.now) }
{
    let mut bytes = [0u8; BLOCK];
    for i in 0..BLOCK {
        if numbers[i] > 255 {
            return None;
        }
        bytes[i] = numbers[i] as u8;
    }
    Some(bytes)
}
