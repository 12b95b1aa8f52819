//! A run is taken in: its entries are written to the cells of the slots that have one, and each seat
//! gets the receipts of its own.

ghost use Rattle.std.specs.Prelude.{◌≡◌, ◌+◌, ◌<◌, ◌≤◌, ◌^◌, ◌++◌, [], ◌∷◌, Some, true, length, slice_index, vec_len, vec_capacity, IfOk, OnOk, IfErr};
ghost use Rattle.tb_work.specs.Changes.{entries};
ghost use Rattle.tb_journal.specs.Journals.{seat_of, all_below};
ghost use Rattle.tb_work.specs.Receipts.{HaveNumbers, AreBelow, receipts_in};
ghost use Rattle.tb_work.specs.Slots.{cells_of, known_of, cells_in, entries_in};

use crate::adopt_refusal::AdoptRefusal;
use crate::desk::Desk;
use crate::entering::enter;
use crate::places::Places;
use crate::receipt::Receipt;
use crate::seat::Seat;
use crate::shared::Shared;
use crate::team::Team;
use crate::told::Told;
use std::alloc::{AllocError, Global};
use std::sync::Mutex;
use std::sync::ledger::{Blank, Book, Share};
use tb_journal::{Journal, seat_of};
use tb_live::Live;
use tb_model::Entry;

/// Whether each entry of the run's journal is of one of its seats.
pub fn is_seated(live: &Live) -> bool
    ensures { result ≡ all_below (length live.now.session.control.claims) (entries live.now.session) }
{
    journal_of(live).are_below(live.seats())
}

/// The journal, and how long it is.
pub fn journal_of(live: &Live) -> &Journal
    ensures entries { result.now.items ≡ entries live.now.session }
    ensures length { length result.now.items ≡ length live.now.session.journal }
{
    live.journal()
}

/// The journal is within its limit.
fn is_within(live: &Live)
    ensures within { length live.now.session.journal ≤ live.now.session.limit }
    ensures fits { length live.now.session.journal < 2 ^ 32 }
{
    live.journal_is_sound();
}

/// Capacity for so many receipts.
fn room_for(alloc: Global, count: u32) -> Result<Vec<Receipt>, AllocError>
    ensures none { IfOk result (λ room. vec_len room ≡ 0) }
    ensures room { IfOk result (λ room. count ≤ vec_capacity room) }
{
    Vec::with_capacity(alloc, count as usize)
}

/// One seat for each part of the share.
fn seats_for<N: Team>(
    alloc: Global,
    count: u32,
    rest: &mut Share<N>,
) -> Result<Vec<Seat<N>>, AllocError>
    requires parts { (rest.old.parts ≡ count) × (rest.old.amount ≡ 0) }
    requires count { count ≤ N.seats }
    ensures rest { OnOk result ((rest.new.parts ≡ 0) × (rest.new.amount ≡ 0)) }
    ensures len { IfOk result (λ v. vec_len v ≡ count) }
    ensures numbers { IfOk result (λ v. HaveNumbers v.items) }
    ensures below { IfOk result (λ v. AreBelow 1 v.items) }
    ensures none { IfOk result (λ v. receipts_in v.items ≡ 0) }
{
    let mut seats = Vec::new(alloc);
    for number in 0..count {
        let share = rest.split_off(1, 0);
        seats.push(Seat::new(alloc, number, share))?;
    }
    Ok(seats)
}

/// Gives the receipt of the entry at the slot to the seat that made it.
fn give<N: Team>(
    alloc: Global,
    places: &Places,
    told: &mut Vec<Told>,
    book: &mut Book<N>,
    seats: &mut [Seat<N>],
    place: u32,
    entry: Entry,
) -> Result<(), AdoptRefusal>
    requires cells { places.now ≡ N.slots }
    requires from { places.now.first ≤ place }
    requires place { place < length places.now.cells }
    requires seat { seat_of entry < length seats.old }
    requires numbers { HaveNumbers seats.old }
    requires above { AreBelow place seats.old }
    ensures numbers { OnOk result (HaveNumbers seats.new) }
    ensures above { OnOk result (AreBelow (place + 1) seats.new) }
    ensures total { OnOk result (book.new.total ≡ book.old.total + 1) }
    ensures receipts { OnOk result (receipts_in seats.new ≡ receipts_in seats.old + 1) }
    ensures cells { OnOk result (cells_of told.new.items ≡ cells_of told.old.items ++ slice_index N.slots.cells place ∷ []) }
    ensures known { OnOk result (known_of told.new.items ≡ known_of told.old.items ++ Some entry ∷ []) }
{
    let seat = &mut seats[seat_of(&entry) as usize];
    enter(alloc, places, told, book, seat, place, entry)?;
    Ok(())
}

/// Writes the entries of all slots that have a cell to these, and gives the seats their receipts.
fn tell_all<N: Team>(
    alloc: Global,
    journal: &Journal,
    places: &Places,
    book: &mut Book<N>,
    seats: &mut [Seat<N>],
) -> Result<Vec<Told>, AdoptRefusal>
    requires cells { places.now ≡ N.slots }
    requires some { 1 ≤ N.slots.first }
    requires from { N.slots.first ≤ length journal.now.items }
    requires enough { length journal.now.items ≤ length N.slots.cells }
    requires fits { length journal.now.items < 2 ^ 32 }
    requires total { book.old.total ≡ 0 }
    requires own { all_below (length seats.old) journal.now.items ≡ true }
    requires numbers { HaveNumbers seats.old }
    requires above { AreBelow 1 seats.old }
    requires none { receipts_in seats.old ≡ 0 }
    ensures receipts { OnOk result (receipts_in seats.new + N.slots.first ≡ length journal.now.items) }
    ensures total { OnOk result (book.new.total + N.slots.first ≡ length journal.now.items) }
    ensures cells { IfOk result (λ t. cells_of t.items ≡ cells_in N.slots (length journal.now.items)) }
    ensures known { IfOk result (λ t. known_of t.items ≡ entries_in N.slots journal.now.items) }
    ensures numbers { OnOk result (HaveNumbers seats.new) }
{
    let mut told = Vec::new(alloc);
    let first = places.first() as usize;
    for place in first..journal.len() {
        let entry = journal.entry(place)?;
        give(alloc, places, &mut told, book, seats, place as u32, entry)?;
    }
    Ok(told)
}

/// Writes the entries of all slots that have a cell to these, and gives the seats their receipts.
// for the proof: the clauses of `tell_all`, in words of the run
fn tell_run<N: Team>(
    alloc: Global,
    live: &Live,
    places: &Places,
    book: &mut Book<N>,
    seats: &mut Vec<Seat<N>>,
) -> Result<Vec<Told>, AdoptRefusal>
    requires cells { places.now ≡ N.slots }
    requires some { 1 ≤ N.slots.first }
    requires from { N.slots.first ≤ length live.now.session.journal }
    requires enough { length live.now.session.journal ≤ length N.slots.cells }
    requires fits { length live.now.session.journal < 2 ^ 32 }
    requires total { book.old.total ≡ 0 }
    requires own { all_below (vec_len seats.old) (entries live.now.session) ≡ true }
    requires numbers { HaveNumbers seats.old.items }
    requires above { AreBelow 1 seats.old.items }
    requires none { receipts_in seats.old.items ≡ 0 }
    ensures receipts { OnOk result (receipts_in seats.new.items + N.slots.first ≡ length live.now.session.journal) }
    ensures total { OnOk result (book.new.total + N.slots.first ≡ length live.now.session.journal) }
    ensures cells { IfOk result (λ t. cells_of t.items ≡ cells_in N.slots (length live.now.session.journal)) }
    ensures known { IfOk result (λ t. known_of t.items ≡ entries_in N.slots (entries live.now.session)) }
    ensures numbers { OnOk result (HaveNumbers seats.new.items) }
    ensures len { vec_len seats.new ≡ vec_len seats.old }
{
    tell_all(alloc, journal_of(live), places, book, seats.as_mut_slice())
}

impl<N: Team> Shared<N> {
    /// Takes a run in, and gives its seats, each with the receipts of its own entries at slots that have
    /// a cell. A refusal hands the run back.
    pub fn adopt(
        alloc: Global,
        live: Live,
        places: Places,
        blank: Blank,
    ) -> Result<(Shared<N>, Vec<Seat<N>>), (Live, AdoptRefusal)>
        requires name { (blank.name ≡ N.name) × (blank.parts ≡ N.parts) }
        requires one_each { blank.parts ≡ N.seats }
        requires places { (places ≡ N.slots) × (N.limit ≤ length places.cells) }
        requires from { N.slots.first ≤ length live.session.journal }
        requires live { (live.session.program ≡ N.program) × (live.session.limit ≡ N.limit) × (live.session.control.breakpoints ≡ N.breakpoints) × (length live.session.control.claims ≡ N.seats) }
        requires begun { entries live.session ≡ N.begun }
        requires own { all_below N.seats (entries live.session) ≡ true }
        ensures seats { IfOk result (λ r. (vec_len r.1 ≡ N.seats) × HaveNumbers r.1.items) }
        ensures receipts { IfOk result (λ r. receipts_in r.1.items + N.slots.first ≡ length live.session.journal) }
        ensures err { IfErr result (λ e. e.0 ≡ live) }
    {
        let (mut book, mut spare) = blank.open::<N>();
        is_within(&live);
        // for the proof: some slot has no cell
        let _first = places.first();
        let Ok(room) = room_for(alloc, live.limit()) else {
            return Err((live, AdoptRefusal::Memory));
        };
        let Ok(mut seats) = seats_for(alloc, live.seats(), &mut spare) else {
            return Err((live, AdoptRefusal::Memory));
        };
        let told = match tell_run(alloc, &live, &places, &mut book, &mut seats) {
            Ok(told) => told,
            Err(refusal) => return Err((live, refusal)),
        };
        let desk = Mutex::new(Desk {
            alloc,
            live,
            told,
            book,
            spare,
            room,
        });
        Ok((
            Shared {
                alloc,
                places,
                desk,
            },
            seats,
        ))
    }
}
