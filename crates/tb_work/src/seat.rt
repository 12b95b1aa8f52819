//! A seat: who takes part, and what it has done.

ghost use Rattle.std.specs.Prelude.{◌≡◌, ◌<◌, ℕ, List, [], IsTrue, true, vec_len, length, map};
ghost use Rattle.tb_work.specs.declared.ended.Ended.TheVariants.{Well, CellTaken};
ghost use Rattle.tb_work.specs.Answering.{IsAnswer};
ghost use Rattle.tb_work.specs.Ending.{IsEnding};
ghost use Rattle.tb_work.specs.Receipts.{IsRow};

use crate::ended::Ended;
use crate::kept::Kept;
use crate::team::Team;
use std::alloc::Global;
use std::marker::Model;
use std::sync::ledger::Share;

/// A seat of a team. Contracts see its number and its receipts, the oldest first.
#[derive(Drop)]
pub struct Seat<N: Team> {
    pub(crate) number: u32,
    // the slot of the newest receipt, and 0 before the first
    pub(crate) last: u32,
    pub(crate) kept: Vec<Kept<N>>,
    pub(crate) share: Share<N>,
    // how its worker ended in the last `go`
    pub(crate) ended: Option<Ended>,
}

impl<N: Team> Model for Seat<N> {
    ghost use Rattle.std.specs.Prelude.{◌≡◌, ◌<◌, ◌≤◌, IfSome, map, true, vec_len};
    ghost use Rattle.tb_work.specs.Answering.{IsAnswer};
    ghost use Rattle.tb_work.specs.Ending.{IsEnding};
    ghost use Rattle.tb_work.specs.Receipts.{Seated, last_from, rises_from, all_of};

    ghost Value = { Seated };

    ghost view = { λ s. record { number = s.number; receipts = map (λ k. k.receipt) s.kept.items } };

    ghost invariant = { λ s.
        (s.share.parts ≡ 1)
        × (s.share.amount ≡ vec_len s.kept)
        × (s.last ≡ last_from 0 (map (λ k. k.receipt) s.kept.items))
        × (rises_from 0 (map (λ k. k.receipt) s.kept.items) ≡ true)
        × (all_of s.number (map (λ k. k.receipt) s.kept.items) ≡ true)
        × (s.number < N.seats)
        × (vec_len s.kept ≤ s.last)
        × IfSome s.ended (λ e. IsAnswer N.program N.limit N.breakpoints N.seats N.begun (IsEnding s.number e)) };
}

impl<N: Team> Seat<N> {
    /// A seat without receipts.
    pub(crate) fn new(alloc: Global, number: u32, share: Share<N>) -> Seat<N>
        requires share { (share.parts ≡ 1) × (share.amount ≡ 0) }
        requires number { number < N.seats }
        ensures number { result.number ≡ number }
        ensures receipts { result.receipts ≡ [] }
    {
        Seat {
            number,
            last: 0,
            kept: Vec::new(alloc),
            share,
            ended: None,
        }
    }

    /// The seat's number.
    pub fn number(&self) -> u32
        ensures number { result ≡ self.now.number }
        ensures seated { result < N.seats }
    {
        self.number
    }

    /// How many receipts there are.
    pub fn len(&self) -> u32
        ensures { result ≡ length self.now.receipts }
    {
        // for the proof: what the type retains is known where a field is read
        let _last = self.last;
        self.kept.as_slice().len() as u32
    }

    /// Whether the seat's worker ended well in the last `go`.
    pub(crate) fn has_ended_well(&self) -> bool
        ensures { IsTrue result → IsAnswer N.program N.limit N.breakpoints N.seats N.begun (IsEnding self.now.number Well) }
    {
        matches!(self.ended, Some(Ended::Well))
    }

    /// Whether it met a cell that was taken.
    pub(crate) fn has_met_a_taken_cell(&self) -> bool
        ensures { IsTrue result → IsAnswer N.program N.limit N.breakpoints N.seats N.begun (IsEnding self.now.number CellTaken) }
    {
        matches!(self.ended, Some(Ended::CellTaken))
    }

    /// Takes the seat apart.
    pub(crate) fn into_parts(self) -> (Vec<Kept<N>>, Share<N>)
        ensures kept { map (λ k. k.receipt) result.0.items ≡ self.receipts }
        ensures len { vec_len result.0 ≡ length self.receipts }
        ensures parts { result.1.parts ≡ 1 }
        ensures amount { result.1.amount ≡ length self.receipts }
        ensures row { IsRow self }
    {
        let Seat {
            number: _,
            last: _,
            kept,
            share,
            ended: _,
        } = self;
        (kept, share)
    }
}
