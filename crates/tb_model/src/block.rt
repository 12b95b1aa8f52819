//! A run of the ordinals of deep names.

ghost use Rattle.std.specs.Prelude.{◌≡◌, IfOk, IfSome, length};
ghost use Rattle.tb_model.specs.Names.{same_name};
ghost use Rattle.tb_model.specs.Spelling.{levels_text};

use crate::levels::Levels;
use std::alloc::{AllocError, Global};
use std::marker::Model;
use std::sync::Arc;

/// How many ordinals a block has.
pub(crate) const BLOCK: usize = 128;

/// 128 ordinals of a deep name. They are on the heap once, for all names that have them.
#[derive(Drop)]
pub(crate) struct Block {
    levels: Arc<Levels>,
}

impl Model for Block {
    ghost use Rattle.std.specs.Prelude.{List, ℕ};
    ghost use Rattle.std.specs.Arc.{arc_value};

    ghost Value = { List ℕ };

    ghost view = { λ b. arc_value b.levels };
}

impl Block {
    /// A block of these ordinals.
    pub fn from_slice(alloc: Global, numbers: &[u32]) -> Result<Block, AllocError>
        requires { length numbers.now ≡ 128 }
        ensures { IfOk result (λ b. b ≡ numbers.now) }
    {
        let mut levels = [0; BLOCK];
        levels.copy_from_slice(numbers);
        Ok(Block {
            levels: Arc::new(alloc, Levels::new(levels))?,
        })
    }

    /// The ordinals, in order.
    pub fn as_slice(&self) -> &[u32]
        ensures is { result.now ≡ self.now }
        ensures full { length self.now ≡ 128 }
    {
        self.levels.as_slice()
    }

    /// Whether the ordinals are the same.
    pub fn is_same(&self, other: &Block) -> bool
        ensures { result ≡ same_name self.now other.now }
    {
        self.levels.is_same(&other.levels)
    }

    /// The levels of the numbers as text, which is stored where each has one digit.
    pub fn text(&self) -> Option<&[u8]>
        ensures { IfSome result (λ t. t.now ≡ levels_text self.now) }
    {
        self.levels.text()
    }

    /// Gives the block one owner more, without a copy. It is refused where it has nine quintillion.
    pub fn share(&self) -> Result<Block, AllocError>
        ensures { IfOk result (λ b. b ≡ self.now) }
    {
        Ok(Block {
            levels: Arc::try_clone(&self.levels)?,
        })
    }
}
