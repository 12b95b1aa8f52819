//! The ordinals of a deep name.

use crate::block::Block;
use smallvec::SmallVec;

/// More ordinals than a block has.
#[derive(Drop)]
pub(crate) struct Deep {
    /// The ordinals nearest to the task, 1 to 128.
    pub near: SmallVec<u32, 8>,
    /// The ordinals further from the task, the block at the root first.
    pub far: Vec<Block>,
}
