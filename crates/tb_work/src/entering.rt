//! An entry is written to its slot's cell, and its seat gets a receipt.

ghost use Rattle.std.specs.Prelude.{◌≡◌, ◌<◌, ◌≤◌, ◌+◌, ◌++◌, [], ◌∷◌, slice_index, Some, length, IfOk, OnOk, OnErr};
ghost use Rattle.tb_journal.specs.Journals.{seat_of};
ghost use Rattle.tb_work.specs.Receipts.{Grew};
ghost use Rattle.tb_work.specs.Slots.{cells_of, known_of};

use crate::kept::Kept;
use crate::places::Places;
use crate::receipt::Receipt;
use crate::seat::Seat;
use crate::team::Team;
use crate::told::Told;
use crate::unmade::Unmade;
use once_cell::race::Note;
use std::alloc::Global;
use std::marker::PhantomData;
use std::sync::ledger::Book;
use tb_journal::copy_of;
use tb_model::Entry;

/// Lets an entry go.
// for the proof: whoever lets one go has to show it for each kind of entry, here once
fn lose(_entry: Entry) {}

/// Writes an entry to its slot's cell, and notes that. What can fail comes before the cell is
/// written.
pub fn write(
    alloc: Global,
    places: &Places,
    told: &mut Vec<Told>,
    place: u32,
    entry: Entry,
) -> Result<Note<Entry>, Unmade>
    requires from { places.now.first ≤ place }
    requires within { place < length places.now.cells }
    ensures cell { IfOk result (λ n. n.cell ≡ slice_index places.now.cells place) }
    ensures entry { IfOk result (λ n. n.known ≡ Some entry) }
    ensures cells { OnOk result (cells_of told.new.items ≡ cells_of told.old.items ++ slice_index places.now.cells place ∷ []) }
    ensures known { OnOk result (known_of told.new.items ≡ known_of told.old.items ++ Some entry ∷ []) }
    ensures refused { OnErr result (told.new.items ≡ told.old.items) }
{
    if told.reserve(1).is_err() {
        lose(entry);
        return Err(Unmade::Memory);
    }
    let Ok(boxed) = Box::new(alloc, entry) else {
        return Err(Unmade::Memory);
    };
    let Some(mut note) = places.write(place, boxed) else {
        return Err(Unmade::CellTaken);
    };
    let again = note.again();
    told.push_reserved(Told { place, note: again });
    Ok(note)
}

/// Writes a copy of an entry to its slot's cell, and notes that. What can fail comes before the
/// cell is written.
fn tell(
    alloc: Global,
    places: &Places,
    told: &mut Vec<Told>,
    place: u32,
    entry: &Entry,
) -> Result<Note<Entry>, Unmade>
    requires from { places.now.first ≤ place }
    requires within { place < length places.now.cells }
    ensures cell { IfOk result (λ n. n.cell ≡ slice_index places.now.cells place) }
    ensures entry { IfOk result (λ n. n.known ≡ Some entry.now) }
    ensures cells { OnOk result (cells_of told.new.items ≡ cells_of told.old.items ++ slice_index places.now.cells place ∷ []) }
    ensures known { OnOk result (known_of told.new.items ≡ known_of told.old.items ++ Some entry.now ∷ []) }
    ensures refused { OnErr result (told.new.items ≡ told.old.items) }
{
    let copy = copy_of(entry)?;
    write(alloc, places, told, place, copy)
}

/// Makes an entry of the seat at the slot, which has to be above the seat's last one.
pub fn enter<N: Team>(
    alloc: Global,
    places: &Places,
    told: &mut Vec<Told>,
    book: &mut Book<N>,
    seat: &mut Seat<N>,
    place: u32,
    entry: Entry,
) -> Result<(), Unmade>
    requires cells { places.now ≡ N.slots }
    requires from { places.now.first ≤ place }
    requires within { place < length places.now.cells }
    requires own { seat_of entry ≡ seat.old.number }
    ensures grew { OnOk result (Grew seat.old seat.new place entry) }
    ensures total { OnOk result (book.new.total ≡ book.old.total + 1) }
    ensures cells { OnOk result (cells_of told.new.items ≡ cells_of told.old.items ++ slice_index N.slots.cells place ∷ []) }
    ensures known { OnOk result (known_of told.new.items ≡ known_of told.old.items ++ Some entry ∷ []) }
    ensures refused { OnErr result ((seat.new ≡ seat.old) × (book.new.total ≡ book.old.total) × (told.new.items ≡ told.old.items)) }
{
    if place <= seat.last {
        return Err(Unmade::CellTaken);
    }
    seat.kept.reserve(1)?;
    let note = match tell(alloc, places, told, place, &entry) {
        Ok(note) => note,
        Err(unmade) => {
            lose(entry);
            return Err(unmade);
        }
    };
    book.add(&mut seat.share, 1);
    seat.kept.push_reserved(Kept {
        receipt: Receipt { place, entry },
        note,
        team: PhantomData,
    });
    seat.last = place;
    Ok(())
}
