//! A run is lent to workers, and comes back.

ghost use Rattle.std.specs.Prelude.{◌≡◌, ◌+◌, ◌<◌, ◌≤◌, ℕ, true, IfOk, IfErr, Err, length, slice_index_or, vec_len};
ghost use Rattle.tb_work.specs.Answering.{IsRun};
ghost use Rattle.tb_work.specs.Changes.{entries};
ghost use Rattle.tb_work.specs.Receipts.{Seated, HaveNumbers};
ghost use Rattle.tb_journal.specs.Journals.{all_below};
ghost use Rattle.tb_live.specs.Session.{with_limit};
ghost use Rattle.tb_team.specs.Gone.{HasSeats};
ghost use Rattle.tb_team.specs.Lending.{IsBack};
ghost use Rattle.tb_team.specs.Losing.{lost_by, IsLostBy, IsUnlent};

use crate::losing::lose;
use crate::lost::Lost;
use crate::open_gate::OpenGate;
use std::alloc::Global;
use std::marker::Brand;
use std::sync::Wait;
use std::sync::ledger::Blank;
use std::thread::Threads;
use tb_live::Live;
use tb_work::{
    AdoptRefusal, Closed, Gap, GoRefusal, Places, Seat, Shared, Team, is_seated, run_is_sound,
};

/// Lets the workers of these seats, which count from 1, execute up to so many steps.
fn work_as<N: Team + Send + Sync, R: Threads + Wait + Sync>(
    rt: &R,
    shared: &Shared<N>,
    team: &mut [Seat<N>],
    most: u32,
) -> Result<(), Lost>
    requires some { 0 < length team.old }
    requires few { length team.old ≤ 64 }
    requires numbers { (i : ℕ) (d : Seated) → i < length team.old → (slice_index_or team.old i d).number ≡ i + 1 }
    ensures { IfErr result (IsLostBy N.program N.limit N.breakpoints N.seats N.begun (length team.old)) }
{
    match shared.go(rt, team, most, &OpenGate) {
        Ok(_) => Ok(()),
        Err(GoRefusal::Memory) => Err(Lost::Memory),
        Err(GoRefusal::CellTaken) => Err(Lost::Taken),
    }
}

/// Lets the workers of the seats from 1 on execute up to so many steps.
fn work<N: Team + Send + Sync, R: Threads + Wait + Sync>(
    rt: &R,
    shared: &Shared<N>,
    seats: &mut Vec<Seat<N>>,
    workers: u32,
    most: u32,
) -> Result<(), Lost>
    requires some { 1 ≤ workers }
    requires few { workers ≤ 64 }
    requires seats { workers < vec_len seats.old }
    requires numbers { HaveNumbers seats.old.items }
    ensures len { vec_len seats.new ≡ vec_len seats.old }
    ensures lost { IfErr result (IsLostBy N.program N.limit N.breakpoints N.seats N.begun workers) }
{
    let team = &mut seats.as_mut_slice()[1..workers as usize + 1];
    work_as(rt, shared, team, most)
}

/// Why a run that isn't taken in is lost.
fn why_refused(refusal: AdoptRefusal) -> Lost
    ensures { result ≡ lost_by refusal }
{
    match refusal {
        AdoptRefusal::Memory => Lost::Memory,
        AdoptRefusal::CellTaken => Lost::Written,
    }
}

/// The run without its receipts.
fn run_of(closed: Closed) -> Live
    ensures { result ≡ closed.live }
{
    closed.live
}

/// The run that lacks a receipt's slot is given up.
fn lost_in(gap: Gap) -> Lost
    ensures lost { result ≡ Lost.Gap }
    ensures run { IsRun gap.closed.live.session }
{
    run_is_sound(&gap.closed.live);
    lose(run_of(gap.closed), Lost::Gap)
}

/// The run, where its workers met no refusal.
fn unless_refused(live: Live, worked: Result<(), Lost>) -> Result<Live, Lost>
    ensures kept { IfOk result (λ back. back.session ≡ live.session) }
    ensures refused { IfErr result (λ why. worked ≡ Err why) }
{
    match worked {
        Ok(()) => Ok(live),
        Err(why) => Err(lose(live, why)),
    }
}

/// Lends the run to the workers of a team of this name, for up to so many steps, and returns it
/// after them.
fn lend_as<N: Team + Send + Sync, R: Threads + Wait + Sync>(
    rt: &R,
    alloc: Global,
    live: Live,
    places: Places,
    blank: Blank,
    workers: u32,
    most: u32,
) -> Result<Live, Lost>
    requires name { (blank.name ≡ N.name) × (blank.parts ≡ N.parts) }
    requires one_each { blank.parts ≡ N.seats }
    requires places { (places ≡ N.slots) × (N.limit ≤ length places.cells) }
    requires from { N.slots.first ≡ length N.begun }
    requires live { (live.session.program ≡ N.program) × (live.session.limit ≡ N.limit) × (live.session.control.breakpoints ≡ N.breakpoints) × (length live.session.control.claims ≡ N.seats) }
    requires begun { entries live.session ≡ N.begun }
    requires own { all_below N.seats (entries live.session) ≡ true }
    requires some { 1 ≤ workers }
    requires few { workers ≤ 64 }
    requires seats { HasSeats live.session }
    ensures back { IfOk result (λ back. IsBack live.session back.session) }
    ensures lost { IfErr result (IsLostBy N.program N.limit N.breakpoints N.seats N.begun workers) }
{
    let (shared, mut seats) = match Shared::<N>::adopt(alloc, live, places, blank) {
        Ok(adopted) => adopted,
        Err((live, refusal)) => return Err(lose(live, why_refused(refusal))),
    };
    let worked = work(rt, &shared, &mut seats, workers, most);
    match shared.close(seats) {
        Ok(closed) => unless_refused(run_of(closed), worked),
        Err(gap) => Err(lost_in(gap)),
    }
}

/// How many entries the journal has.
fn entries_of(live: &Live) -> u32
    ensures count { result ≡ length live.now.session.journal }
    ensures some { 1 ≤ result }
    ensures within { result ≤ live.now.session.limit }
    ensures bound { live.now.session.limit ≤ 1000000 }
{
    live.journal_is_sound();
    live.journal().len() as u32
}

/// The run, where the journal may have so many entries again.
fn with_limit(live: Live, limit: u32) -> Live
    requires within { length live.session.journal ≤ limit }
    requires bound { limit ≤ 1000000 }
    ensures { result.session ≡ with_limit limit live.session }
{
    let mut live = live;
    live.set_limit(limit);
    live
}

/// Lends the run to so many workers for up to so many steps. Meanwhile its journal may have no more entries than there
/// are and these can make, so that the slots of those alone have cells.
pub fn lend<R: Threads + Wait + Sync>(
    rt: &R,
    alloc: Global,
    live: Live,
    workers: u32,
    most: u32,
) -> Result<Live, Lost>
    requires some { 1 ≤ workers }
    requires few { workers ≤ 64 }
    requires seats { HasSeats live.session }
    ensures back { IfOk result (λ back. IsBack live.session back.session) }
    ensures lost { IfErr result (IsUnlent workers live.session) }
{
    if !is_seated(&live) {
        return Err(lose(live, Lost::Unseated));
    }
    let limit = live.limit();
    let entries = entries_of(&live);
    let lent = entries + most.min(limit - entries);
    let live = with_limit(live, lent);
    let Ok(places) = Places::after(alloc, entries, lent) else {
        return Err(lose(live, Lost::Memory));
    };
    let blank = Blank::new(u64::from(live.seats()));
    match lend_as::<Brand, R>(rt, alloc, live, places, blank, workers, most) {
        Ok(back) => {
            back.journal_is_sound();
            Ok(with_limit(back, limit))
        }
        Err(why) => Err(why),
    }
}
