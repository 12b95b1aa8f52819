//! What lies under the lock.

ghost use Rattle.std.specs.Prelude.{◌≡◌, ◌+◌, ◌<◌, ◌≤◌, ◌↔◌, Some, None, reverse, length, vec_len, vec_capacity, take, IfOk, IfErr, OnOk, OnErr};
ghost use Rattle.tb_model.specs.declared.entry.Entry.TheVariants.{Rolled};
ghost use Rattle.tb_control.specs.declared.mode.Mode.TheVariants.{Resumed};
ghost use Rattle.tb_live.specs.Commits.{MayCommit};
ghost use Rattle.tb_live.specs.Modes as modes;
ghost use Rattle.tb_live.specs.Moves.{RollsFor, UndoesFor};
ghost use Rattle.tb_live.specs.Pauses.{with_mode};
ghost use Rattle.tb_live.specs.Session.{with_seat};
ghost use Rattle.tb_live.specs.Working.{ClaimsTask, ClaimsWork, IsOffered};
ghost use Rattle.tb_read.specs.Meaning.{IsPosition};
ghost use Rattle.tb_read.specs.Strips.{IsStripOf};
ghost use Rattle.tb_work.specs.Answering.{ClaimsBy, ClaimsOneBy, CommitsBy, IsAnswer, IsOfTeam, LetsGo, OffersBy, Pauses, Resumes, ResumesFor, RollsBy, Takes, Tells, UndoesBy};
ghost use Rattle.tb_work.specs.Bursts.{BurstsBy, CommitsBurst, CommitsEach, TakesEach, stepped_on};
ghost use Rattle.tb_work.specs.Going.{IsWhy};
ghost use Rattle.tb_work.specs.Refusing.{RefusesPlan, RefusesRoll, RefusesUndo};
ghost use Rattle.tb_work.specs.Changes.{Commits, RollsBack, entries};
ghost use Rattle.tb_work.specs.Claiming.{IsClaim, IsOffer, IsWorkFor};
ghost use Rattle.tb_work.specs.Slots.{cells_of, known_of, cells_in, entries_in};

use crate::asking::{claim_offer, claim_one, claim_work, leave, pause, resume, resume_for};
use crate::burst::Burst;
use crate::entering::enter;
use crate::places::Places;
use crate::receipt::Receipt;
use crate::refused::Refused;
use crate::running::run_is_sound;
use crate::seat::Seat;
use crate::stopping::why_of;
use crate::taking::{next_place, ready_undo, take_back, take_back_all, take_step};
use crate::team::Team;
use crate::told::Told;
use crate::unmade::Unmade;
use crate::why::Why;
use std::alloc::{AllocError, Global};
use std::sync::ledger::{Book, Share};
use tb_live::{
    Claim, ClaimRefusal, CommitRefusal, Live, Offer, Removed, RollRefusal, StepRefusal,
    UndoRefusal, Work,
};
use tb_model::{StepId, TaskName};
use tb_next::strip_at;
use tb_plan::{Plan, Strip};

/// The run, with a note for each slot of its journal that has a cell, and the book of the team's ledger.
#[derive(Drop)]
pub struct Desk<N: Team> {
    pub alloc: Global,
    pub live: Live,
    pub told: Vec<Told>,
    pub book: Book<N>,
    // takes the seats' shares at the end
    pub spare: Share<N>,
    // capacity for the receipts of all seats
    pub room: Vec<Receipt>,
    pub ghost program: { live.session.program ≡ N.program },
    pub ghost limit: { live.session.limit ≡ N.limit },
    pub ghost breakpoints: { live.session.control.breakpoints ≡ N.breakpoints },
    pub ghost seats: { length live.session.control.claims ≡ N.seats },
    pub ghost begins: { take (length N.begun) (entries live.session) ≡ N.begun },
    pub ghost none_spare: { (spare.parts ≡ 0) × (spare.amount ≡ 0) },
    pub ghost room_for_all: { (vec_len room ≡ 0) × (length live.session.journal ≤ vec_capacity room) × (N.limit ≤ vec_capacity room) },
    pub ghost some: { 1 ≤ N.slots.first },
    pub ghost counted: { book.total + N.slots.first ≡ length live.session.journal },
    pub ghost cells: { cells_of told.items ≡ cells_in N.slots (length live.session.journal) },
    pub ghost known: { known_of told.items ≡ entries_in N.slots (entries live.session) },
}

impl<N: Team> Desk<N> {
    /// What always holds of the run, for a caller to cite.
    fn is_of_team(&self)
        ensures { IsOfTeam N.program N.limit N.breakpoints N.seats N.begun self.now.live.session }
    {
        run_is_sound(&self.live);
    }

    /// Prepares, writes the entry to the slot's cell, and commits. The claim ends.
    pub fn commit(
        &mut self,
        places: &Places,
        seat: &mut Seat<N>,
        plan: Plan,
    ) -> Result<u32, Refused<CommitRefusal>>
        requires places { places.now ≡ N.slots }
        requires enough { N.limit ≤ length N.slots.cells }
        ensures ok { IfOk result (Commits N.program plan seat.old seat.new) }
        ensures err { OnErr result (seat.new ≡ seat.old) }

        ensures run { CommitsBy seat.old seat.new plan result self.old.live.session self.new.live.session }
        ensures answer { IsAnswer N.program N.limit N.breakpoints N.seats N.begun (CommitsBy seat.old seat.new plan result) }
    {
        self.is_of_team();
        self.commit_now(places, seat, plan)
    }

    fn commit_now(
        &mut self,
        places: &Places,
        seat: &mut Seat<N>,
        plan: Plan,
    ) -> Result<u32, Refused<CommitRefusal>>
        requires places { places.now ≡ N.slots }
        requires enough { N.limit ≤ length N.slots.cells }
        ensures ok { IfOk result (Commits N.program plan seat.old seat.new) }
        ensures err { OnErr result (seat.new ≡ seat.old) }
        ensures run { CommitsBy seat.old seat.new plan result self.old.live.session self.new.live.session }
    {
        let Desk {
            alloc,
            live,
            told,
            book,
            spare: _,
            room: _,
        } = self;
        let entry = match live.prepare(seat.number(), &plan) {
            Ok(entry) => entry,
            Err(refusal) => return Err(Refused::Run { refusal }),
        };
        let place = next_place(live);
        match enter(*alloc, places, told, book, seat, place, entry) {
            Ok(()) => {}
            Err(Unmade::CellTaken) => return Err(Refused::CellTaken),
            Err(Unmade::Memory) => {
                let refusal = StepRefusal::Memory;
                return Err(Refused::Run {
                    refusal: CommitRefusal::Step { refusal },
                });
            }
        }
        Ok(take_step(live, seat.number(), plan))
    }

    /// Commits the plans one after another, until one is refused. The claim ends.
    pub fn commit_burst(&mut self, places: &Places, seat: &mut Seat<N>, plans: Vec<Plan>) -> Burst
        requires places { places.now ≡ N.slots }
        requires enough { N.limit ≤ length N.slots.cells }
        ensures seat { CommitsBurst N.program plans.items seat.old seat.new result }
        ensures run { BurstsBy N.program seat.old seat.new plans.items result self.old.live.session self.new.live.session }
        ensures answer { IsAnswer N.program N.limit N.breakpoints N.seats N.begun (BurstsBy N.program seat.old seat.new plans.items result) }
    {
        self.is_of_team();
        let burst = self.commit_each(places, seat, plans);
        self.let_go(seat);
        burst
    }

    fn commit_each(&mut self, places: &Places, seat: &mut Seat<N>, plans: Vec<Plan>) -> Burst
        requires places { places.now ≡ N.slots }
        requires enough { N.limit ≤ length N.slots.cells }
        ensures each { CommitsEach N.program result.taken (length self.old.live.session.journal) plans.items seat.old seat.new }
        ensures whole { (result.refusal ≡ None) ↔ (result.taken ≡ length plans.items) }
        ensures run { TakesEach seat.old.number result.taken plans.items result.refusal self.old.live.session self.new.live.session }
    {
        let mut taken = 0;
        for plan in plans {
            match self.commit_more(places, seat, plan) {
                Ok(_) => taken += 1,
                Err(refusal) => {
                    return Burst {
                        taken,
                        refusal: Some(refusal),
                    };
                }
            }
        }
        Burst {
            taken,
            refusal: None,
        }
    }

    /// Prepares, writes the entry to the slot's cell, and commits. The seat claims the task still.
    fn commit_more(
        &mut self,
        places: &Places,
        seat: &mut Seat<N>,
        plan: Plan,
    ) -> Result<u32, Refused<CommitRefusal>>
        requires places { places.now ≡ N.slots }
        requires enough { N.limit ≤ length N.slots.cells }
        ensures ok { IfOk result (Commits N.program plan seat.old seat.new) }
        ensures place { IfOk result (λ at. (at ≡ length self.old.live.session.journal) × (length self.new.live.session.journal ≡ at + 1)) }
        ensures err { OnErr result (seat.new ≡ seat.old) }
        ensures may { OnOk result (MayCommit self.old.live.session seat.old.number plan) }
        ensures taken { OnOk result (self.new.live.session ≡ stepped_on seat.old.number self.old.live.session plan) }
        ensures stays { OnErr result (self.new.live.session ≡ self.old.live.session) }
        ensures refused { IfErr result (RefusesPlan seat.old.number self.old.live.session plan) }
    {
        let Desk {
            alloc,
            live,
            told,
            book,
            spare: _,
            room: _,
        } = self;
        let entry = match live.prepare(seat.number(), &plan) {
            Ok(entry) => entry,
            Err(refusal) => return Err(Refused::Run { refusal }),
        };
        let place = next_place(live);
        match enter(*alloc, places, told, book, seat, place, entry) {
            Ok(()) => {}
            Err(Unmade::CellTaken) => return Err(Refused::CellTaken),
            Err(Unmade::Memory) => {
                let refusal = StepRefusal::Memory;
                return Err(Refused::Run {
                    refusal: CommitRefusal::Step { refusal },
                });
            }
        }
        Ok(live.commit_prepared(seat.number(), plan))
    }

    /// Prepares, writes the entry to the slot's cell, and takes the step back with all that need
    /// it.
    pub fn roll(
        &mut self,
        places: &Places,
        seat: &mut Seat<N>,
        id: &StepId,
    ) -> Result<Vec<Removed>, Refused<RollRefusal>>
        requires places { places.now ≡ N.slots }
        requires enough { N.limit ≤ length N.slots.cells }
        ensures ok { OnOk result (RollsBack id.now seat.old seat.new) }
        ensures err { OnErr result (seat.new ≡ seat.old) }

        ensures run { RollsBy seat.old seat.new id.now result self.old.live.session self.new.live.session }
        ensures answer { IsAnswer N.program N.limit N.breakpoints N.seats N.begun (RollsBy seat.old seat.new id.now result) }
    {
        self.is_of_team();
        self.roll_now(places, seat, id)
    }

    fn roll_now(
        &mut self,
        places: &Places,
        seat: &mut Seat<N>,
        id: &StepId,
    ) -> Result<Vec<Removed>, Refused<RollRefusal>>
        requires places { places.now ≡ N.slots }
        requires enough { N.limit ≤ length N.slots.cells }
        ensures ok { OnOk result (RollsBack id.now seat.old seat.new) }
        ensures err { OnErr result (seat.new ≡ seat.old) }
        ensures rolled { IfOk result (λ removed. RollsFor seat.old.number self.old.live.session id.now self.new.live.session removed.items) }
        ensures takes { OnOk result (Takes self.old.live.session (Rolled seat.old.number id.now) seat.old seat.new) }
        ensures stays { OnErr result (self.new.live.session ≡ self.old.live.session) }
        ensures refused { IfErr result (RefusesRoll self.old.live.session id.now) }
    {
        let Desk {
            alloc,
            live,
            told,
            book,
            spare: _,
            room: _,
        } = self;
        // for the proof: the limit bounds the journal
        let _limit = live.limit();
        let entry = match live.prepare_roll(seat.number(), id) {
            Ok(entry) => entry,
            Err(refusal) => return Err(Refused::Run { refusal }),
        };
        let place = next_place(live);
        match enter(*alloc, places, told, book, seat, place, entry) {
            Ok(()) => {}
            Err(Unmade::CellTaken) => return Err(Refused::CellTaken),
            Err(Unmade::Memory) => {
                return Err(Refused::Run {
                    refusal: RollRefusal::Memory,
                });
            }
        }
        Ok(take_back_all(live, seat.number(), id))
    }

    /// Prepares, writes the entry to the slot's cell, and takes the step back, where nothing needs
    /// it.
    pub fn undo(
        &mut self,
        places: &Places,
        seat: &mut Seat<N>,
        id: &StepId,
    ) -> Result<Removed, Refused<UndoRefusal>>
        requires places { places.now ≡ N.slots }
        requires enough { N.limit ≤ length N.slots.cells }
        ensures ok { OnOk result (RollsBack id.now seat.old seat.new) }
        ensures err { OnErr result (seat.new ≡ seat.old) }

        ensures run { UndoesBy seat.old seat.new id.now result self.old.live.session self.new.live.session }
        ensures answer { IsAnswer N.program N.limit N.breakpoints N.seats N.begun (UndoesBy seat.old seat.new id.now result) }
    {
        self.is_of_team();
        self.undo_now(places, seat, id)
    }

    fn undo_now(
        &mut self,
        places: &Places,
        seat: &mut Seat<N>,
        id: &StepId,
    ) -> Result<Removed, Refused<UndoRefusal>>
        requires places { places.now ≡ N.slots }
        requires enough { N.limit ≤ length N.slots.cells }
        ensures ok { OnOk result (RollsBack id.now seat.old seat.new) }
        ensures err { OnErr result (seat.new ≡ seat.old) }
        ensures undone { IfOk result (UndoesFor seat.old.number self.old.live.session id.now self.new.live.session) }
        ensures takes { OnOk result (Takes self.old.live.session (Rolled seat.old.number id.now) seat.old seat.new) }
        ensures stays { OnErr result (self.new.live.session ≡ self.old.live.session) }
        ensures refused { IfErr result (RefusesUndo seat.old.number self.old.live.session id.now) }
    {
        let Desk {
            alloc,
            live,
            told,
            book,
            spare: _,
            room: _,
        } = self;
        // for the proof: the limit bounds the journal
        let _limit = live.limit();
        let entry = match ready_undo(live, seat.number(), id) {
            Ok(entry) => entry,
            Err(refusal) => return Err(Refused::Run { refusal }),
        };
        let place = next_place(live);
        match enter(*alloc, places, told, book, seat, place, entry) {
            Ok(()) => {}
            Err(Unmade::CellTaken) => return Err(Refused::CellTaken),
            Err(Unmade::Memory) => {
                return Err(Refused::Run {
                    refusal: UndoRefusal::Memory,
                });
            }
        }
        Ok(take_back(live, seat.number(), id))
    }

    /// The least task that can step, where no other seat claims it.
    pub fn claim(&mut self, seat: &Seat<N>) -> Result<Claim, AllocError>
        ensures work { IfOk result (IsClaim N.program) }
        ensures claimed { IfOk result (ClaimsWork self.old.live.session seat.now.number self.new.live.session) }
        ensures err { OnErr result (self.new.live.session ≡ self.old.live.session) }
        ensures answer { IsAnswer N.program N.limit N.breakpoints N.seats N.begun (ClaimsBy seat.now.number result) }
    {
        self.is_of_team();
        claim_work(&mut self.live, seat.number())
    }

    /// The least task that can step, where no other seat claims it, with its statement and not the private ones around it.
    pub fn offer(&mut self, seat: &Seat<N>) -> Result<Offer, AllocError>
        ensures task { IfOk result (IsOffer N.program) }
        ensures offered { IfOk result (IsOffered self.old.live.session seat.now.number self.new.live.session) }
        ensures err { OnErr result (self.new.live.session ≡ self.old.live.session) }
        ensures answer { IsAnswer N.program N.limit N.breakpoints N.seats N.begun (OffersBy seat.now.number result) }
    {
        self.is_of_team();
        claim_offer(&mut self.live, seat.number())
    }

    /// The private statements around a line of the team's program.
    pub fn strip(&self, at: u32) -> Strip
        requires { IsPosition N.program at }
        ensures { IsStripOf N.program at result }
    {
        strip_at(self.live.program(), at)
    }

    /// A task, where no other seat claims it.
    pub fn claim_task(&mut self, seat: &Seat<N>, task: &TaskName) -> Result<Work, ClaimRefusal>
        ensures work { IfOk result (IsWorkFor N.program task.now) }
        ensures claimed { ClaimsTask self.old.live.session seat.now.number task.now self.new.live.session result }
        ensures answer { IsAnswer N.program N.limit N.breakpoints N.seats N.begun (ClaimsOneBy seat.now.number task.now result) }
    {
        self.is_of_team();
        claim_one(&mut self.live, seat.number(), task)
    }

    /// Ends the seat's claim.
    pub fn let_go(&mut self, seat: &Seat<N>)
        ensures left { self.new.live.session ≡ with_seat self.old.live.session seat.now.number None }
        ensures answer { IsAnswer N.program N.limit N.breakpoints N.seats N.begun (LetsGo seat.now.number) }
    {
        self.is_of_team();
        leave(&mut self.live, seat.number());
    }

    /// Pauses the run.
    pub fn pause(&mut self)
        ensures mode { self.new.live.session ≡ with_mode self.old.live.session (modes.paused self.old.live.session.control.mode) }
        ensures answer { IsAnswer N.program N.limit N.breakpoints N.seats N.begun Pauses }
    {
        self.is_of_team();
        pause(&mut self.live);
    }

    /// Lets the run go on.
    pub fn resume(&mut self)
        ensures mode { self.new.live.session ≡ with_mode self.old.live.session Resumed }
        ensures answer { IsAnswer N.program N.limit N.breakpoints N.seats N.begun Resumes }
    {
        self.is_of_team();
        resume(&mut self.live);
    }

    /// Lets the run go on for so many steps.
    pub fn resume_for(&mut self, steps: u32)
        ensures mode { self.new.live.session ≡ with_mode self.old.live.session (modes.counting steps) }
        ensures answer { IsAnswer N.program N.limit N.breakpoints N.seats N.begun (ResumesFor steps) }
    {
        self.is_of_team();
        resume_for(&mut self.live, steps);
    }

    /// Why no step is executed now.
    pub fn why(&self) -> Why
        ensures why { IsWhy self.now.live.session result }
        ensures answer { IsAnswer N.program N.limit N.breakpoints N.seats N.begun (Tells result) }
    {
        self.is_of_team();
        why_of(&self.live)
    }
}
