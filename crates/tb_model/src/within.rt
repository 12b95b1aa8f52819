//! Whether a name ends in another.

ghost use Rattle.std.specs.Prelude.{◌≡◌};
ghost use Rattle.tb_model.specs.Names.{is_within};

use crate::parts::Parts;
use crate::run::Run;

/// Whether the ordinals end in those of the other.
pub(crate) fn ends_with(numbers: &Parts<'_>, end: &Parts<'_>) -> bool
    ensures { result ≡ is_within end.now numbers.now }
{
    let shared = end.far.len();
    if numbers.far.len() < shared {
        return false;
    }
    // what is before as many blocks as the end has
    let front = match &numbers.far[shared..] {
        [] => numbers.near.as_slice(),
        [block, ..] => block.as_slice(),
    };
    let count = end.near.as_slice().len();
    if front.len() < count {
        return false;
    }
    let near = &front[front.len() - count..];
    end.is_same(&Parts {
        near: Run::of_slice(near),
        far: &numbers.far[..shared],
    })
}
