//! The steps that a later one needs for what they share.

ghost use Rattle.std.specs.Prelude.{◌<◌, ◌+◌, length, OnOk};
ghost use Rattle.tb_order.specs.Needed.{AreShared};

use std::alloc::AllocError;
use tb_core::History;
use tb_lanes::{Kept, cut, grow, is_load, places_in, put, slot_of};

/// Notes the step at this index at the cell that it touches, or at the output. One that stores or
/// prints comes after all that share it, so these go.
pub fn note_shared(kept: &mut Kept, entries: &History<'_>, at: usize) -> Result<(), AllocError>
    requires at { at < length entries.now }
    requires shared { AreShared entries.now at kept.old }
    ensures { OnOk result (AreShared entries.now (at + 1) kept.new) }
{
    let action = entries.action(at);
    let Some(slot) = slot_of(action) else {
        return Ok(());
    };
    grow(kept.alloc, &mut kept.writes, slot)?;
    grow(kept.alloc, &mut kept.loads, slot)?;
    if is_load(action) {
        let count = places_in(&kept.loads, slot).len();
        put(&mut kept.loads, slot, count, at)?;
        return Ok(());
    }
    put(&mut kept.writes, slot, 0, at)?;
    cut(&mut kept.loads, slot, 0);
    Ok(())
}
