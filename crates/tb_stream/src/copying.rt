//! Copies of clocks.

ghost use Rattle.std.specs.Prelude.{◌≡◌, IfOk};
ghost use Rattle.tb_stream.specs.Copies.{IsCopy};

use crate::clocks::Clocks;
use crate::mark::Mark;
use std::alloc::{AllocError, Global};

/// A copy of the marks.
fn copy_marks(alloc: Global, marks: &[Option<Mark>]) -> Result<Vec<Option<Mark>>, AllocError>
    ensures { IfOk result (λ copied. copied.items ≡ marks.now) }
{
    let mut copied = Vec::new(alloc);
    copied.extend_from_slice(marks)?;
    Ok(copied)
}

/// A copy of the clocks.
pub fn copy_clocks(alloc: Global, clocks: &Clocks) -> Result<Clocks, AllocError>
    ensures { IfOk result (IsCopy clocks.now) }
{
    Ok(Clocks {
        newest: copy_marks(alloc, &clocks.newest)?,
        origins: copy_marks(alloc, &clocks.origins)?,
        rows: clocks.rows.clone()?,
        lasts: clocks.lasts.clone()?,
    })
}
