//! How the ordinals of a deep name are put together: from others, or with the blocks of another
//! name.

ghost use Rattle.std.specs.Prelude.{◌≡◌, ◌≤◌, ◌<◌, ◌∷◌, IfOk, length};
ghost use Rattle.tb_model.specs.Blocks.{IsDeep};

use crate::block::{BLOCK, Block};
use crate::deep::Deep;
use crate::parts::Parts;
use smallvec::SmallVec;
use std::alloc::{AllocError, Global};

/// The ordinals of a deep name, in new blocks.
pub(crate) fn cut(alloc: Global, numbers: &[u32]) -> Result<Deep, AllocError>
    requires { 128 < length numbers.now }
    ensures { IfOk result (λ d. IsDeep d.near.items d.far.items numbers.now) }
{
    let mut near = numbers;
    let mut far = Vec::with_capacity(alloc, numbers.len() / BLOCK)?;
    'blocks: while near.len() > BLOCK {
        let at = near.len() - BLOCK;
        let block = Block::from_slice(alloc, &near[at..])?;
        far.push(block)?;
        near = &near[..at];
    }
    Ok(Deep {
        near: SmallVec::from_slice(alloc, near)?,
        far,
    })
}

/// The ordinals of the parts.
pub(crate) fn shared(alloc: Global, parts: &Parts<'_>) -> Result<Deep, AllocError>
    requires { 128 < length parts.now }
    ensures { IfOk result (λ d. IsDeep d.near.items d.far.items parts.now) }
{
    let far = copied(alloc, parts.far)?;
    Ok(Deep {
        near: SmallVec::from_slice(alloc, parts.near.as_slice())?,
        far,
    })
}

/// An ordinal, and those of the parts after it: 128 or more.
pub(crate) fn grown(alloc: Global, first: u32, rest: &Parts<'_>) -> Result<Deep, AllocError>
    requires { 128 ≤ length rest.now }
    ensures { IfOk result (λ d. IsDeep d.near.items d.far.items (first ∷ rest.now)) }
{
    let mut far = copied(alloc, rest.far)?;
    let others = rest.near.as_slice();
    if others.len() < BLOCK {
        let mut near = SmallVec::with_capacity(alloc, others.len() + 1)?;
        near.push_reserved(first);
        near.extend_from_slice(others)?;
        return Ok(Deep { near, far });
    }
    far.push(Block::from_slice(alloc, others)?)?;
    Ok(Deep {
        near: SmallVec::from_slice(alloc, &[first])?,
        far,
    })
}

/// The blocks, each with one owner more, and capacity for another.
fn copied(alloc: Global, far: &[Block]) -> Result<Vec<Block>, AllocError>
    ensures { IfOk result (λ blocks. blocks.items ≡ far.now) }
{
    let mut blocks = Vec::with_capacity(alloc, far.len() + 1)?;
    for block in far {
        blocks.push(block.share()?)?;
    }
    Ok(blocks)
}
