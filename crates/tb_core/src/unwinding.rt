//! Stored steps that go are taken out, from the newest on, and what stays is then moved over them.
//! So each stored step that stays is moved once, however many go.

ghost use Rattle.std.specs.Prelude.{◌≡◌, reverse};
ghost use Rattle.tb_wait.specs.Kin.{KeepsNames};
ghost use Rattle.tb_undo.specs.Steps.{Stands, IsWithout};
ghost use Rattle.std.specs.List.{AllZip};
ghost use Rattle.tb_places.specs.Renumbering.{left_from};
ghost use Rattle.tb_core.specs.Soundness.{names_in};
ghost use Rattle.tb_core.specs.Storing.{IsStored, entries_in, replaced_stored};
ghost use Rattle.tb_core.specs.UnwindingStored.{UnwoundOf};
ghost use Rattle.tb_core.specs.Rolled.{IsOfHistory};
ghost use Rattle.tb_core.specs.Unwinding.{events, AreTied};

use crate::entry::Entry;
use crate::removed::Removed;
use crate::renumbering::{first_of, goes};
use crate::rollback::Rollback;
use std::mem::replace;
use tb_model::{Event, StepId};
use tb_undo::Tables;

/// Takes the stored steps that go out, each back by its own record, and answers them from the
/// newest on.
pub fn unwind(entries: &mut Vec<Entry>, tables: &mut Tables, rollback: Rollback) -> Vec<Removed>
    requires tied { AreTied (reverse (entries_in tables.old entries.old.items)) tables.old }
    requires stored { AllZip (IsStored (names_in tables.old)) entries.old.items (entries_in tables.old entries.old.items) }
    requires ready { IsOfHistory (events (reverse (entries_in tables.old entries.old.items))) rollback }
    ensures left { entries.new.items ≡ left_from 0 rollback.places.items entries.old.items }
    ensures unwound { UnwoundOf rollback.step rollback.places.items (entries_in tables.old entries.old.items) tables.old
        tables.new result.items }
    ensures names { KeepsNames tables.old.waits.tasks tables.new.waits.tasks }
{
    let Rollback {
        step: _,
        places,
        mut steps,
        count: _,
        mut removed,
    } = rollback;
    let mut next = places.len();
    'back: while 0 < next {
        next -= 1;
        let entry = replace(&mut entries[places[next] as usize], Entry::hollow());
        let id = steps.pop().unwrap();
        removed.push_reserved(take_back(tables, entry, id));
    }
    close(entries, &places);
    removed
}

/// Moves the stored steps that stay over those that go.
fn close(entries: &mut Vec<Entry>, going: &[u32])
    ensures { entries.new.items ≡ left_from 0 going.now entries.old.items }
{
    let mut stay = first_of(going, entries.len());
    let mut next = 0;
    for at in stay..entries.len() {
        if goes(going, next, at) {
            next += 1;
        } else {
            entries.swap(stay, at);
            stay += 1;
        }
    }
    entries.truncate(stay);
}

/// Takes a step back by its own record: its task is that of its name.
pub fn take_back(tables: &mut Tables, entry: Entry, id: StepId) -> Removed
    requires { Stands tables.old (record { task = id.task; action = entry.action }) (replaced_stored entry) }
    ensures without { IsWithout tables.old (record { task = id.task; action = entry.action }) (replaced_stored entry) tables.new }
    ensures names { KeepsNames tables.old.waits.tasks tables.new.waits.tasks }
    ensures removed { result ≡ record { id = id; action = entry.action } }
{
    let replaced = entry.replaced();
    let StepId { task, k } = id;
    let event = Event {
        task,
        action: entry.action,
    };
    tables.revert(&event, replaced);
    Removed {
        id: StepId {
            task: event.task,
            k,
        },
        action: event.action,
    }
}
