//! A run is shared, and given back when a scenario has been played.

ghost use Rattle.std.specs.Prelude.{◌≡◌, ◌≤◌, length, true};
ghost use Rattle.tb_journal.specs.Journals.{all_below};
ghost use Rattle.tb_work.specs.Changes.{entries};

use crate::scenario::{Left, Scenario};
use std::alloc::{AllocGlobal, Global};
use std::marker::Brand;
use std::mem;
use std::process::Abort;
use std::sync::Wait;
use std::sync::ledger::Blank;
use std::thread::Threads;
use tb_journal::{Journal, seat_of};
use tb_live::{Break, Live};
use tb_model::Entry;
use tb_read::read;
use tb_work::{AdoptRefusal, Closed, Places, Receipt, Seat, Shared, Team, is_seated};

/// A run of the program, where it has memory and is accepted, and limit and seats are in bounds.
pub fn opened(alloc: Global, text: &[u8], limit: u32, seats: u32) -> Option<Live> {
    if limit < 1 || 1_000_000 < limit || 65 < seats {
        return None;
    }
    let program = match read(alloc, text) {
        Ok(program) => program,
        Err(_) => return None,
    };
    match Live::open(alloc, program, limit, seats) {
        Ok(live) => Some(live),
        Err(_) => None,
    }
}

/// A run of the program with a breakpoint at a cell, where it has memory and is accepted.
pub fn opened_to_stop(alloc: Global, text: &[u8], cell: u32, seats: u32) -> Option<Live> {
    let mut live = opened(alloc, text, 100, seats)?;
    match live.add_break(Break::Cell(cell)) {
        Ok(_) => Some(live),
        Err(_) => {
            mem::forget(live);
            None
        }
    }
}

/// Whether both entries are of one seat and one task.
fn are_alike(left: &Entry, right: &Entry) -> bool {
    if seat_of(left) != seat_of(right) {
        return false;
    }
    match (left, right) {
        (Entry::Stepped { event: one, .. }, Entry::Stepped { event: two, .. }) => {
            one.task == two.task
        }
        (Entry::Rolled { id: one, .. }, Entry::Rolled { id: two, .. }) => one == two,
        _ => false,
    }
}

/// The receipts are the journal after its opening, slot by slot.
fn compare(rt: &impl Abort, receipts: &[Receipt], journal: &Journal) {
    assert_eq!(rt; receipts.len(), journal.len().saturating_sub(1));
    let mut last = 0;
    for receipt in receipts {
        let place = receipt.place;
        assert!(rt; last < place, "{place} behind {last}");
        assert!(rt; (place as usize) < journal.len(), "no entry at {place}");
        if let Ok(entry) = journal.entry(place as usize) {
            assert!(rt; are_alike(&receipt.entry, &entry), "at {place}");
        }
        last = place;
    }
}

/// The run is as it should be.
fn compare_run(rt: &impl Abort, live: &Live, left: &Left) {
    assert_eq!(rt; live.core().count(), left.steps);
    if let Some(entries) = left.entries {
        assert_eq!(rt; live.journal().len(), entries);
    }
    if let Some(cells) = left.cells {
        assert!(rt; live.cells() == cells);
    }
}

fn check(rt: &impl Abort, closed: &Closed, left: &Left) {
    compare(rt, closed.receipts.as_slice(), closed.live.journal());
    compare_run(rt, &closed.live, left);
}

/// Shares the run under a name. The run comes back where the team found no memory.
fn play_named<N: Team + Send + Sync, R: Threads + Wait + Abort + AllocGlobal + Sync>(
    rt: &R,
    live: Live,
    places: Places,
    blank: Blank,
    scenario: Scenario,
    left: &Left,
) -> Option<Live>
    requires name { (blank.name ≡ N.name) × (blank.parts ≡ N.parts) }
    requires one_each { blank.parts ≡ N.seats }
    requires places { (places ≡ N.slots) × (N.limit ≤ length places.cells) }
    requires from { N.slots.first ≡ 1 }
    requires live { (live.session.program ≡ N.program) × (live.session.limit ≡ N.limit) × (live.session.control.breakpoints ≡ N.breakpoints) × (length live.session.control.claims ≡ N.seats) }
    requires begun { entries live.session ≡ N.begun }
    requires own { all_below N.seats (entries live.session) ≡ true }
{
    live.journal_is_sound();
    let (shared, mut seats) = match Shared::<N>::adopt(rt.alloc(), live, places, blank) {
        Ok(team) => team,
        Err((live, refusal)) => {
            assert!(rt; refusal == AdoptRefusal::Memory);
            return Some(live);
        }
    };
    scenario.play(rt, &shared, seats.as_mut_slice());
    match shared.close(seats) {
        Ok(closed) => {
            check(rt, &closed, left);
            mem::forget(closed);
        }
        Err(gap) => {
            mem::forget(gap);
            panic!(rt; "a gap")
        }
    }
    None
}

/// A cell for each entry that the run may have.
fn places_of(rt: &(impl Abort + AllocGlobal), limit: u32) -> Places
    ensures first { result.first ≡ 1 }
    ensures enough { limit ≤ length result.cells }
{
    match Places::new(rt.alloc(), limit) {
        Ok(places) => places,
        Err(_) => Places::new(rt.alloc(), limit).expect(rt, "memory is there again"),
    }
}

/// Shares the run among its seats, plays the scenario and closes the team. The run comes back where the
/// team found no memory.
fn attempt<R: Threads + Wait + Abort + AllocGlobal + Sync>(
    rt: &R,
    live: Live,
    scenario: Scenario,
    left: &Left,
) -> Option<Live> {
    assert!(rt; is_seated(&live));
    let places = places_of(rt, live.limit());
    let blank = Blank::new(u64::from(live.seats()));
    play_named::<Brand, R>(rt, live, places, blank, scenario, left)
}

/// Shares the run among its seats, plays the scenario and closes the team, where memory is refused
/// once at most.
pub fn play<R: Threads + Wait + Abort + AllocGlobal + Sync>(
    rt: &R,
    live: Live,
    scenario: Scenario,
    left: &Left,
) {
    if let Some(back) = attempt(rt, live, scenario, left) {
        let back = attempt(rt, back, scenario, left);
        assert!(rt; back.is_none());
        mem::forget(back);
    }
}
