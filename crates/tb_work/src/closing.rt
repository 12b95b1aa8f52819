//! A team is closed: its seats' receipts are compared with the journal.

ghost use Rattle.std.specs.Prelude.{◌≡◌, ◌+◌, ◌<◌, ◌≤◌, ◌++◌, ℕ, [], ◌∷◌, All, Some, None, slice_get, slice_index, length, vec_len, vec_capacity, map, take, drop, MatchOption, MatchResult, IfOk, IsPermutation, IsSortedByKey};
ghost use Rattle.std.specs.Ordering.{nat_cmp};
ghost use Rattle.tb_model.specs.declared.entry.Entry.{Entry as AnEntry};
ghost use Rattle.tb_work.specs.Changes.{entries};
ghost use Rattle.tb_work.specs.Receipts.{first_gap, all_receipts, receipts_in, Stands, HaveOwnNumbers, IsRow, receipts_from};
ghost use Rattle.tb_work.specs.Closing.{IsReleased, IsUnclaimed};
ghost use Rattle.tb_work.specs.Slots.{cells_of, known_of, cells_in, entries_in};

use crate::adopting::journal_of;
use crate::closed::Closed;
use crate::desk::Desk;
use crate::gap::Gap;
use crate::kept::Kept;
use crate::receipt::Receipt;
use crate::seat::Seat;
use crate::shared::Shared;
use crate::team::Team;
use crate::told::Told;
use once_cell::race::Note;
use std::sync::ledger::{Book, Share};
use tb_journal::Journal;
use tb_live::Live;
use tb_model::Entry;

/// Two notes of one cell agree.
fn compare(told: &mut [Told], place: usize, note: Note<Entry>)
    requires place { place < length told.old }
    requires cell { note.cell ≡ slice_index (cells_of told.old) place }
    ensures same { told.new ≡ told.old }
    ensures agrees { (x : AnEntry) (y : AnEntry) → slice_get (known_of told.old) place ≡ Some (Some x) → note.known ≡ Some y → x ≡ y }
{
    let seen = &mut told[place].note;
    seen.compare(note);
}

/// Takes one receipt in.
fn take_in<N: Team>(
    journal: &Journal,
    told: &mut [Told],
    kept: Kept<N>,
    receipts: &mut Vec<Receipt>,
    gap: &mut Option<u32>,
)
    requires cells { cells_of told.old ≡ cells_in N.slots (length journal.now.items) }
    requires known { known_of told.old ≡ entries_in N.slots journal.now.items }
    requires from { N.slots.first ≤ length journal.now.items }
    requires enough { length journal.now.items ≤ length N.slots.cells }
    requires room { vec_len receipts.old < vec_capacity receipts.old }
    ensures told { told.new ≡ told.old }
    ensures receipts { receipts.new.items ≡ receipts.old.items ++ kept.receipt ∷ [] }
    ensures len { vec_len receipts.new ≡ vec_len receipts.old + 1 }
    ensures capacity { vec_capacity receipts.new ≡ vec_capacity receipts.old }
    ensures stands { Stands journal.now.items kept.receipt }
    ensures at { N.slots.first ≤ kept.receipt.place }
    ensures gap { MatchOption gap.old (gap.new ≡ first_gap (length journal.now.items) (kept.receipt ∷ [])) (λ n. gap.new ≡ Some n) }
{
    let Kept {
        receipt,
        note,
        team: _,
    } = kept;
    let place = receipt.place;
    if (place as usize) < journal.len() {
        let index = place as usize + told.len() - journal.len();
        compare(told, index, note);
    } else if gap.is_none() {
        *gap = Some(place);
    }
    receipts.push_reserved(receipt);
}

/// Takes a seat's receipts in.
fn take_all<N: Team>(
    journal: &Journal,
    told: &mut [Told],
    kept: Vec<Kept<N>>,
    receipts: &mut Vec<Receipt>,
    gap: &mut Option<u32>,
)
    requires cells { cells_of told.old ≡ cells_in N.slots (length journal.now.items) }
    requires known { known_of told.old ≡ entries_in N.slots journal.now.items }
    requires from { N.slots.first ≤ length journal.now.items }
    requires enough { length journal.now.items ≤ length N.slots.cells }
    requires room { vec_len receipts.old + vec_len kept ≤ vec_capacity receipts.old }
    ensures told { told.new ≡ told.old }
    ensures receipts { receipts.new.items ≡ receipts.old.items ++ map (λ k. k.receipt) kept.items }
    ensures len { vec_len receipts.new ≡ vec_len receipts.old + vec_len kept }
    ensures capacity { vec_capacity receipts.new ≡ vec_capacity receipts.old }
    ensures stands { All (Stands journal.now.items) (map (λ k. k.receipt) kept.items) }
    ensures at { All (λ r. N.slots.first ≤ r.place) (map (λ k. k.receipt) kept.items) }
    ensures gap { MatchOption gap.old (gap.new ≡ first_gap (length journal.now.items) (map (λ k. k.receipt) kept.items)) (λ n. gap.new ≡ Some n) }
{
    for one in kept {
        take_in(journal, told, one, receipts, gap);
    }
}

/// Takes all seats' receipts in, and their shares.
fn take_seats<N: Team>(
    journal: &Journal,
    told: &mut [Told],
    book: &mut Book<N>,
    all: &mut Share<N>,
    seats: Vec<Seat<N>>,
    receipts: &mut Vec<Receipt>,
    gap: &mut Option<u32>,
)
    requires cells { cells_of told.old ≡ cells_in N.slots (length journal.now.items) }
    requires known { known_of told.old ≡ entries_in N.slots journal.now.items }
    requires from { N.slots.first ≤ length journal.now.items }
    requires enough { length journal.now.items ≤ length N.slots.cells }
    requires total { book.old.total + N.slots.first ≡ length journal.now.items }
    requires none { (all.old.parts ≡ 0) × (all.old.amount ≡ 0) }
    requires empty { receipts.old.items ≡ [] }
    requires room { length journal.now.items ≤ vec_capacity receipts.old }
    requires no_gap { gap.old ≡ None }
    ensures parts { all.new.parts ≡ vec_len seats }
    ensures amount { all.new.amount ≡ receipts_in seats.items }
    ensures total { book.new.total ≡ book.old.total }
    ensures receipts { receipts.new.items ≡ all_receipts seats.items }
    ensures stands { All (Stands journal.now.items) (all_receipts seats.items) }
    ensures at { All (λ r. N.slots.first ≤ r.place) (all_receipts seats.items) }
    ensures gap { gap.new ≡ first_gap (length journal.now.items) (all_receipts seats.items) }
    ensures rows { All IsRow seats.items }
{
    for seat in seats {
        let (kept, share) = seat.into_parts();
        all.merge(share);
        book.audit(all);
        take_all(journal, told, kept, receipts, gap);
    }
}

/// Ends all claims.
fn release(live: &mut Live)
    ensures { IsReleased live.old.session live.new.session }
{
    for seat in 0..live.seats() {
        live.let_go(seat);
    }
}

impl<N: Team> Shared<N> {
    /// Gives the run back, without claims, and the receipts of all seats by their slots. A receipt
    /// whose slot the journal doesn't have is a gap.
    pub fn close(self, seats: Vec<Seat<N>>) -> Result<Closed, Gap>
        requires all { vec_len seats ≡ N.seats }
        requires parts { N.seats ≡ N.parts }
        ensures program { MatchResult result (λ c. c.live.session.program ≡ N.program) (λ g. g.closed.live.session.program ≡ N.program) }
        ensures limit { MatchResult result (λ c. c.live.session.limit ≡ N.limit) (λ g. g.closed.live.session.limit ≡ N.limit) }
        ensures breakpoints { MatchResult result (λ c. c.live.session.control.breakpoints ≡ N.breakpoints) (λ g. g.closed.live.session.control.breakpoints ≡ N.breakpoints) }
        ensures begins { MatchResult result (λ c. take (length N.begun) (entries c.live.session) ≡ N.begun) (λ g. take (length N.begun) (entries g.closed.live.session) ≡ N.begun) }
        ensures seats { MatchResult result (λ c. length c.live.session.control.claims ≡ N.seats) (λ g. length g.closed.live.session.control.claims ≡ N.seats) }
        ensures released { MatchResult result (λ c. IsUnclaimed N.seats c.live.session) (λ g. IsUnclaimed N.seats g.closed.live.session) }
        ensures count { MatchResult result (λ c. receipts_in seats.items + N.slots.first ≡ length c.live.session.journal) (λ g. receipts_in seats.items + N.slots.first ≡ length g.closed.live.session.journal) }
        ensures receipts { MatchResult result (λ c. IsPermutation (all_receipts seats.items) c.receipts.items) (λ g. IsPermutation (all_receipts seats.items) g.closed.receipts.items) }
        ensures sorted { IfOk result (λ c. IsSortedByKey (λ r. r.place) nat_cmp c.receipts.items) }
        ensures whole { HaveOwnNumbers seats.items → IfOk result (λ c. c.receipts.items ≡ receipts_from N.slots.first (drop N.slots.first (entries c.live.session))) }
        ensures rows { All IsRow seats.items }
        ensures at { All (λ r. N.slots.first ≤ r.place) (all_receipts seats.items) }
        ensures stands { MatchResult result (λ c. All (Stands (entries c.live.session)) (all_receipts seats.items)) (λ g. All (Stands (entries g.closed.live.session)) (all_receipts seats.items)) }
        ensures exact { MatchResult result (λ c. first_gap (length c.live.session.journal) (all_receipts seats.items) ≡ None) (λ g. first_gap (length g.closed.live.session.journal) (all_receipts seats.items) ≡ Some g.place) }
    {
        let Shared {
            alloc: _,
            places: _,
            desk,
        } = self;
        let Desk {
            alloc: _,
            mut live,
            mut told,
            mut book,
            mut spare,
            room,
        } = desk.into_inner();
        release(&mut live);
        let mut receipts = room;
        let mut gap = None;
        take_seats(
            journal_of(&live),
            told.as_mut_slice(),
            &mut book,
            &mut spare,
            seats,
            &mut receipts,
            &mut gap,
        );
        book.audit(&mut spare);
        receipts.sort_unstable_by_key(|receipt| receipt.place);
        let closed = Closed { live, receipts };
        match gap {
            None => Ok(closed),
            Some(place) => Err(Gap { place, closed }),
        }
    }
}
