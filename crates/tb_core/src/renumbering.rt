//! The indexes of the stored steps, where some of these go: each that comes after these is one
//! lower for each that went. Each row of the indexes is gone over, after the first that goes. Where
//! there are more rows than stored steps after that, these are taken off the indexes and put back
//! in place of it. Each stored step has its task's id.

ghost use Rattle.std.specs.Prelude.{◌≡◌, ◌≤◌, ◌<◌, ◌++◌, ℕ, IsTrue, false, length, take, drop};
ghost use Rattle.std.specs.List.{AllZip, IsDistinct};
ghost use Rattle.tb_model.specs.Names.{same_name};
ghost use Rattle.tb_places.specs.Places.{IsIndexOf, HasRoomForAll};
ghost use Rattle.tb_places.specs.Renumbering.{RiseFrom, goes_at, left_from};
ghost use Rattle.tb_core.specs.Renumbering.{events_in};
ghost use Rattle.tb_core.specs.Soundness.{names_in};
ghost use Rattle.tb_core.specs.Storing.{IsStored, entries_in};

use crate::entry::Entry;
use tb_places::Places;
use tb_undo::Tables;

/// Renumbers the stored steps that stay where those at these indexes, which rise, go.
pub fn renumber(places: &mut Places, tables: &Tables, entries: &[Entry], going: &[u32])
    requires index { IsIndexOf (names_in tables.now) (events_in (entries_in tables.now entries.now)) places.old }
    requires stored { AllZip (IsStored (names_in tables.now)) entries.now (entries_in tables.now entries.now) }
    requires rise { RiseFrom 0 going.now }
    requires bound { length entries.now ≤ 1000000 }
    ensures { IsIndexOf (names_in tables.now) (left_from 0 going.now (events_in (entries_in tables.now entries.now))) places.new }
{
    let first = first_of(going, entries.len());
    if places.rows() <= entries.len() - first {
        places.close_gaps(going);
        return;
    }
    // for the proof: each name is there once
    let _ = tables.name(0);
    cut(places, tables, entries, first);
    refill(places, tables, entries, first, going);
}

/// The first index that goes, or the end.
pub fn first_of(going: &[u32], end: usize) -> usize
    ensures within { result ≤ end }
    ensures first { (at : ℕ) → at < result → goes_at at going.now ≡ false }
{
    match going {
        [first, ..] => end.min(*first as usize),
        [] => end,
    }
}

/// Takes the stored steps from this index on off the indexes.
// for the proof: `_tables`, which clauses name
fn cut(places: &mut Places, _tables: &Tables, entries: &[Entry], first: usize)
    requires index { IsIndexOf (names_in _tables.now) (events_in (entries_in _tables.now entries.now)) places.old }
    requires stored { AllZip (IsStored (names_in _tables.now)) entries.now (entries_in _tables.now entries.now) }
    requires distinct { IsDistinct same_name (names_in _tables.now) }
    requires within { first ≤ length entries.now }
    ensures index { IsIndexOf (names_in _tables.now) (take first (events_in (entries_in _tables.now entries.now))) places.new }
    ensures room { HasRoomForAll (names_in _tables.now) (events_in (entries_in _tables.now entries.now)) places.new }
{
    let mut at = entries.len();
    'back: while first < at {
        at -= 1;
        let entry = &entries[at];
        places.pop(Some(entry.task as usize), &entry.action);
    }
}

/// Puts the stored steps from the first index on that stay back, each with its new index.
// for the proof: `_tables`, which clauses name
fn refill(places: &mut Places, _tables: &Tables, entries: &[Entry], first: usize, going: &[u32])
    requires index { IsIndexOf (names_in _tables.now) (take first (events_in (entries_in _tables.now entries.now))) places.old }
    requires room { HasRoomForAll (names_in _tables.now) (events_in (entries_in _tables.now entries.now)) places.old }
    requires stored { AllZip (IsStored (names_in _tables.now)) entries.now (entries_in _tables.now entries.now) }
    requires distinct { IsDistinct same_name (names_in _tables.now) }
    requires within { first ≤ length entries.now }
    requires bound { length entries.now ≤ 1000000 }
    ensures { IsIndexOf (names_in _tables.now) (take first (events_in (entries_in _tables.now entries.now))
        ++ left_from first going.now (drop first (events_in (entries_in _tables.now entries.now)))) places.new }
{
    let mut next = 0;
    let mut place = first as u32;
    for at in first..entries.len() {
        if goes(going, next, at) {
            next += 1;
        } else {
            let entry = &entries[at];
            places.push_reserved(Some(entry.task as usize), &entry.action, place);
            place += 1;
        }
    }
}

/// Whether the next that goes is the one at this index.
pub fn goes(going: &[u32], next: usize, at: usize) -> bool
    ensures goes { result ≡ goes_at at (drop next going.now) }
    ensures within { IsTrue result → next < length going.now }
{
    match going.get(next) {
        Some(place) => *place as usize == at,
        None => false,
    }
}
