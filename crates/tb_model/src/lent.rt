//! How the ordinals of a name are lent.

use crate::spread::Spread;

/// Ordinals as they are in memory, or made of bytes.
#[derive(Drop)]
pub(crate) enum Lent<'a> {
    Slice(&'a [u32]),
    Spread(Spread),
}
