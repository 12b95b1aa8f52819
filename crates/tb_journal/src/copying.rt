//! Copies of entries.

ghost use Rattle.std.specs.Prelude.{◌≡◌, IfOk};

use std::alloc::AllocError;
use tb_model::{Entry, Event};

/// A copy of the entry.
pub fn copy_of(entry: &Entry) -> Result<Entry, AllocError>
    ensures { IfOk result (λ copy. copy ≡ entry.now) }
{
    match entry {
        Entry::Opened => Ok(Entry::Opened),
        Entry::Stepped { seat, event } => Ok(Entry::Stepped {
            seat: *seat,
            event: Event {
                task: event.task.clone()?,
                action: event.action.clone()?,
            },
        }),
        Entry::Rolled { seat, id } => Ok(Entry::Rolled {
            seat: *seat,
            id: id.clone()?,
        }),
    }
}
