//! What any thread of a team asks of the run, and the workers.

ghost use Rattle.std.specs.Prelude.{◌≡◌, ◌+◌, ◌<◌, ◌^◌, All, Any, Err, length, IfOk, IsTrue, OnOk, OnErr};
ghost use Rattle.tb_work.specs.declared.ended.Ended.TheVariants.{Well, CellTaken};
ghost use Rattle.tb_work.specs.declared.go_refusal.GoRefusal.TheVariants.{CellTaken as MetTakenCell};
ghost use Rattle.tb_read.specs.Meaning.{IsPosition};
ghost use Rattle.tb_read.specs.Strips.{IsStripOf};
ghost use Rattle.tb_work.specs.Answering.{ClaimsBy, ClaimsOneBy, CommitsBy, IsAnswer, LetsGo, OffersBy, Pauses, Resumes, ResumesFor, RollsBy, Tells, UndoesBy};
ghost use Rattle.tb_work.specs.Bursts.{BurstsBy, CommitsBurst};
ghost use Rattle.tb_work.specs.Changes.{Commits, RollsBack};
ghost use Rattle.tb_work.specs.Claiming.{ArePlansOf, IsClaim, IsOffer, IsTask, IsWorkFor};
ghost use Rattle.tb_work.specs.Ending.{IsEnding, IsTurn};
ghost use Rattle.tb_work.specs.Growing.{GrewBySteps, AllGrew};
ghost use Rattle.tb_work.specs.Receipts.{receipts_in};

use crate::burst::Burst;
use crate::ended::Ended;
use crate::gate::Gate;
use crate::go_refusal::GoRefusal;
use crate::ran::Ran;
use crate::refused::Refused;
use crate::seat::Seat;
use crate::shared::Shared;
use crate::team::Team;
use crate::turn::{Turn, turn_behind};
use std::alloc::AllocError;
use std::sync::Wait;
use std::thread;
use std::thread::Threads;
use tb_live::{
    Claim, ClaimRefusal, CommitRefusal, Offer, Removed, RollRefusal, Situated, UndoRefusal, Work,
};
use tb_model::{StepId, TaskName};
use tb_plan::{Plan, Strip, plan, plan_burst, private_of};

impl<N: Team> Shared<N> {
    /// Gives up the seat's former claim, and gives it one on the least task that can step and that no
    /// other seat claims.
    pub fn claim<R: Wait>(&self, rt: &R, seat: &Seat<N>) -> Result<Claim, AllocError>
        ensures work { IfOk result (IsClaim N.program) }
        ensures answer { IsAnswer N.program N.limit N.breakpoints N.seats N.begun (ClaimsBy seat.now.number result) }
    {
        self.desk.lock(rt).claim(seat)
    }

    /// Gives the seat a claim on the task in place of its former one.
    pub fn claim_task<R: Wait>(
        &self,
        rt: &R,
        seat: &Seat<N>,
        task: &TaskName,
    ) -> Result<Work, ClaimRefusal>
        ensures work { IfOk result (IsWorkFor N.program task.now) }
        ensures answer { IsAnswer N.program N.limit N.breakpoints N.seats N.begun (ClaimsOneBy seat.now.number task.now result) }
    {
        self.desk.lock(rt).claim_task(seat, task)
    }

    /// Ends the seat's claim.
    pub fn let_go<R: Wait>(&self, rt: &R, seat: &Seat<N>)
        ensures { IsAnswer N.program N.limit N.breakpoints N.seats N.begun (LetsGo seat.now.number) }
    {
        self.desk.lock(rt).let_go(seat);
    }

    /// Executes the step of a plan that was made for the task that the seat claims, and answers the
    /// slot of its entry. The claim ends.
    pub fn commit<R: Wait>(
        &self,
        rt: &R,
        seat: &mut Seat<N>,
        plan: Plan,
    ) -> Result<u32, Refused<CommitRefusal>>
        ensures ok { IfOk result (Commits N.program plan seat.old seat.new) }
        ensures err { OnErr result (seat.new ≡ seat.old) }
        ensures answer { IsAnswer N.program N.limit N.breakpoints N.seats N.begun (CommitsBy seat.old seat.new plan result) }
    {
        self.desk.lock(rt).commit(&self.places, seat, plan)
    }

    /// Commits the plans one after another, in one hold of the lock, until one is refused. The claim ends.
    pub fn commit_burst<R: Wait>(&self, rt: &R, seat: &mut Seat<N>, plans: Vec<Plan>) -> Burst
        ensures seat { CommitsBurst N.program plans.items seat.old seat.new result }
        ensures answer { IsAnswer N.program N.limit N.breakpoints N.seats N.begun (BurstsBy N.program seat.old seat.new plans.items result) }
    {
        self.desk.lock(rt).commit_burst(&self.places, seat, plans)
    }

    /// Takes a step back with all that need it, and returns them in the order of the history, the
    /// chosen one first.
    pub fn roll<R: Wait>(
        &self,
        rt: &R,
        seat: &mut Seat<N>,
        id: &StepId,
    ) -> Result<Vec<Removed>, Refused<RollRefusal>>
        ensures ok { OnOk result (RollsBack id.now seat.old seat.new) }
        ensures err { OnErr result (seat.new ≡ seat.old) }
        ensures answer { IsAnswer N.program N.limit N.breakpoints N.seats N.begun (RollsBy seat.old seat.new id.now result) }
    {
        self.desk.lock(rt).roll(&self.places, seat, id)
    }

    /// Takes a step back that nothing needs.
    pub fn undo<R: Wait>(
        &self,
        rt: &R,
        seat: &mut Seat<N>,
        id: &StepId,
    ) -> Result<Removed, Refused<UndoRefusal>>
        ensures ok { OnOk result (RollsBack id.now seat.old seat.new) }
        ensures err { OnErr result (seat.new ≡ seat.old) }
        ensures answer { IsAnswer N.program N.limit N.breakpoints N.seats N.begun (UndoesBy seat.old seat.new id.now result) }
    {
        self.desk.lock(rt).undo(&self.places, seat, id)
    }

    /// Pauses the run. What is paused stays as it is.
    pub fn pause<R: Wait>(&self, rt: &R)
        ensures { IsAnswer N.program N.limit N.breakpoints N.seats N.begun Pauses }
    {
        self.desk.lock(rt).pause();
    }

    /// Lets the run go on.
    pub fn resume<R: Wait>(&self, rt: &R)
        ensures { IsAnswer N.program N.limit N.breakpoints N.seats N.begun Resumes }
    {
        self.desk.lock(rt).resume();
    }

    /// Claims as `claim` does, without the private statements around the task's.
    fn offer<R: Wait>(&self, rt: &R, seat: &Seat<N>) -> Result<Offer, AllocError>
        ensures task { IfOk result (IsOffer N.program) }
        ensures answer { IsAnswer N.program N.limit N.breakpoints N.seats N.begun (OffersBy seat.now.number result) }
    {
        self.desk.lock(rt).offer(seat)
    }

    /// The private statements around a line of the team's program.
    fn strip<R: Wait>(&self, rt: &R, at: u32) -> Strip
        requires { IsPosition N.program at }
        ensures { IsStripOf N.program at result }
    {
        self.desk.lock(rt).strip(at)
    }

    /// Evaluates the task's statement, and where that is private, the private ones that follow it. The others are only
    /// looked for then, since looking for them takes longer than a step.
    fn plans_of<R: Wait>(&self, rt: &R, task: &Situated) -> Result<Vec<Plan>, AllocError>
        requires { IsTask N.program task.now }
        ensures { IfOk result (λ plans. ArePlansOf N.program task.now plans.items) }
    {
        if private_of(&task.instr).is_none() {
            let mut plans = Vec::new(self.alloc);
            plans.push(plan(self.alloc, &task.instr, &task.config)?)?;
            return Ok(plans);
        }
        let strip = self.strip(rt, task.config.at);
        plan_burst(self.alloc, &task.instr, &strip, &task.config)
    }

    #[tactic(auto, using(crate::proofs::Growing::grew_none, crate::proofs::Growing::grew_same))]
    /// Claims once, and commits a burst of what was claimed.
    fn turn<R: Wait, G: Gate>(&self, rt: &R, seat: &mut Seat<N>, gate: &G, nth: &mut u64) -> Turn
        ensures grew { GrewBySteps seat.old seat.new }
        ensures told { IsTurn N.program N.limit N.breakpoints N.seats N.begun seat.old.number result }
    {
        let task = match self.offer(rt, seat) {
            Ok(Offer::Task(task)) => task,
            Ok(Offer::Later) => return Turn::Later,
            Ok(Offer::Done) | Ok(Offer::Stopped) => return Turn::Over { ended: Ended::Well },
            Err(_) => return Turn::Over {
                ended: Ended::Memory,
            },
        };
        let Ok(plans) = self.plans_of(rt, &task) else {
            return Turn::Over {
                ended: Ended::Memory,
            };
        };
        *nth = nth.saturating_add(1);
        gate.between(seat.number(), *nth);
        let burst = self.commit_burst(rt, seat, plans);
        match &burst.refusal {
            None => Turn::On,
            Some(refusal) => turn_behind(refusal),
        }
    }

    #[tactic(auto, using(crate::proofs::Growing::grew_none, crate::proofs::Growing::grew_both, crate::proofs::Growing::grew_same))]
    /// Claims and commits until there is nothing more to do.
    fn work<R: Wait, G: Gate>(&self, rt: &R, seat: &mut Seat<N>, gate: &G)
        ensures { GrewBySteps seat.old seat.new }
    {
        let mut nth = 0u64;
        for _ in rt.forever() {
            match self.turn(rt, seat, gate, &mut nth) {
                Turn::On => {}
                Turn::Later => thread::yield_now(),
                Turn::Over { ended } => {
                    self.let_go(rt, seat);
                    seat.ended = Some(ended);
                    break;
                }
            }
        }
    }

    /// One worker a seat, and how many steps they took.
    fn all_work<R: Threads + Wait + Sync, G: Gate + Sync>(
        &self,
        rt: &R,
        seats: &mut [Seat<N>],
        gate: &G,
    ) -> u64
    where
        N: Send + Sync,
        requires { (0 < length seats.old) × (length seats.old < 2 ^ 32) }
        ensures steps { result + receipts_in seats.old ≡ receipts_in seats.new }
        ensures grew { AllGrew seats.old seats.new }
    {
        let threads = seats.len();
        let worker = |_: usize, seat: &mut Seat<N>|
            ensures { GrewBySteps seat.old seat.new }
        { self.work(rt, seat, gate) };
        let before = count(seats);
        thread::for_each_mut(rt, seats, threads, &worker);
        count(seats) - before
    }

    /// Lets one worker a seat execute up to so many steps in all. Each worker has a thread of its
    /// own; where one can't be started, another does its work. After a refusal, too, the steps that
    /// were executed stay.
    pub fn go<R: Threads + Wait + Sync, G: Gate + Sync>(
        &self,
        rt: &R,
        seats: &mut [Seat<N>],
        most: u32,
        gate: &G,
    ) -> Result<Ran, GoRefusal>
    where
        N: Send + Sync,
        requires { (0 < length seats.old) × (length seats.old < 2 ^ 32) }
        ensures steps { IfOk result (λ r. r.steps + receipts_in seats.old ≡ receipts_in seats.new) }
        ensures resumed { IsAnswer N.program N.limit N.breakpoints N.seats N.begun (ResumesFor most) }
        ensures why { IfOk result (λ r. IsAnswer N.program N.limit N.breakpoints N.seats N.begun (Tells r.why)) }
        ensures well { OnOk result (All (λ s. IsAnswer N.program N.limit N.breakpoints N.seats N.begun (IsEnding s.number Well)) seats.new) }
        ensures taken { result ≡ Err MetTakenCell → Any (λ s. IsAnswer N.program N.limit N.breakpoints N.seats N.begun (IsEnding s.number CellTaken)) seats.new }
        ensures grew { AllGrew seats.old seats.new }
    {
        self.desk.lock(rt).resume_for(most);
        let steps = self.all_work(rt, seats, gate);
        if some_met_a_taken_cell(seats) {
            return Err(GoRefusal::CellTaken);
        }
        if !all_ended_well(seats) {
            return Err(GoRefusal::Memory);
        }
        let why = self.desk.lock(rt).why();
        Ok(Ran { steps, why })
    }
}

/// Whether some worker met a cell that was taken.
fn some_met_a_taken_cell<N: Team>(seats: &[Seat<N>]) -> bool
    ensures { IsTrue result → Any (λ s. IsAnswer N.program N.limit N.breakpoints N.seats N.begun (IsEnding s.number CellTaken)) seats.now }
{
    for seat in seats {
        if seat.has_met_a_taken_cell() {
            return true;
        }
    }
    false
}

/// Whether all workers ended well.
fn all_ended_well<N: Team>(seats: &[Seat<N>]) -> bool
    ensures { IsTrue result → All (λ s. IsAnswer N.program N.limit N.breakpoints N.seats N.begun (IsEnding s.number Well)) seats.now }
{
    for seat in seats {
        if !seat.has_ended_well() {
            return false;
        }
    }
    true
}

/// How many receipts there are.
fn count<N: Team>(seats: &[Seat<N>]) -> u64
    requires { length seats.now < 2 ^ 32 }
    ensures { result ≡ receipts_in seats.now }
{
    let mut sum = 0u64;
    for seat in seats {
        sum += u64::from(seat.len());
    }
    sum
}
