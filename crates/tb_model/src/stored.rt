//! Where the ordinals of a name are.

use crate::deep::Deep;
use crate::few::Few;
use smallvec::SmallVec;
use std::sync::Arc;

/// Up to three ordinals are in the value itself, and up to fourteen small ones. Others are on the
/// heap, where all copies share them; the names of a deep task and of its descendants share blocks
/// of them.
#[derive(Drop)]
pub(crate) enum Stored {
    Zero,
    One([u32; 1]),
    Two([u32; 2]),
    Three([u32; 3]),
    Few(Few),
    Shared(Arc<SmallVec<u32, 8>>),
    Deep(Arc<Deep>),
}
