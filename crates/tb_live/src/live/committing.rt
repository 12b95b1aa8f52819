//! Plans that seats commit, and rollbacks that are prepared.

ghost use Rattle.std.specs.Prelude.{◌≡◌, IfOk, IfErr, OnErr, IfSome, IfNone, IsOk, IsSome, Some, length};
ghost use Rattle.tb_model.specs.declared.entry.Entry.TheVariants.{Rolled};
ghost use Rattle.tb_live.specs.Commits.{Commits, CommitsMore, IsPrepared, IsOffered, MayCommit, RefusesCommit, entry_to_come};
ghost use Rattle.tb_live.specs.Moves.{IsRollPrepared, KeepsAll};
ghost use Rattle.tb_live.specs.Session.{with_entry, with_seat};

use super::Live;
use crate::commit_refusal::CommitRefusal;
use crate::committing::{enter_on, enter_plan};
use crate::prepared::{Prepared, keep, take_event};
use crate::rolling::ready_roll;
use crate::stepping::{enter_readied, ready_step};
use tb_model::{Entry, StepId};
use tb_next::foreign;
use tb_plan::Plan;
use tb_roll::RollRefusal;

impl Live {
    /// Takes all memory for a commit of the plan by the seat, and returns the entry to come, whose
    /// slot is the journal's length. The `commit` of that plan right after it is done, and takes
    /// none. A refusal, for want of memory too, retains what an earlier call prepared.
    pub fn prepare(&mut self, seat: u32, plan: &Plan) -> Result<Entry, CommitRefusal>
        ensures session { self.new.session ≡ self.old.session }
        ensures prepared { IfOk result (IsPrepared seat self.new plan.now) }
        ensures refused { IfErr result (RefusesCommit self.old.session seat plan.now) }
        ensures kept { OnErr result (self.new ≡ self.old) }
    {
        if let Some(refusal) = self.withheld(seat, plan) {
            return Err(refusal);
        }
        match ready_step(
            &mut self.core,
            &mut self.journal,
            &mut self.prepared,
            &mut self.floor,
            self.limit,
            plan,
        ) {
            Ok((event, copy)) => {
                keep(&mut self.prepared, Prepared::Step { seat, event: copy });
                Ok(Entry::Stepped { seat, event })
            }
            Err(refusal) => Err(CommitRefusal::Step { refusal }),
        }
    }

    /// Executes the step of a plan that was made for the task that the seat claims, and answers the
    /// slot of its entry. The claim ends. A plan that isn't for the task's situation by this
    /// program is stale. A refusal, for want of memory too, retains what is prepared.
    pub fn commit(&mut self, seat: u32, plan: Plan) -> Result<u32, CommitRefusal>
        ensures committed { Commits seat self.old.session plan self.new.session result }
        ensures kept { OnErr result (self.new ≡ self.old) }
        ensures room { MayCommit self.old.session seat plan
            → self.old.prepared ≡ Some (entry_to_come seat self.old.session plan) → IsOk result }
    {
        if let Some(refusal) = self.withheld(seat, &plan) {
            return Err(refusal);
        }
        let place = self.journal.len() as u32;
        match enter_plan(
            &self.program,
            &mut self.core,
            &mut self.journal,
            &mut self.control,
            &mut self.prepared,
            &mut self.floor,
            self.limit,
            seat,
            plan,
        ) {
            Ok(_) => Ok(place),
            Err(refusal) => Err(CommitRefusal::Step { refusal }),
        }
    }

    /// Executes the step of a plan as `commit` does, and retains the claim: the seat goes on with
    /// the task.
    pub fn commit_more(&mut self, seat: u32, plan: Plan) -> Result<u32, CommitRefusal>
        ensures committed { CommitsMore seat self.old.session plan self.new.session result }
        ensures kept { OnErr result (self.new ≡ self.old) }
        ensures room { MayCommit self.old.session seat plan
            → self.old.prepared ≡ Some (entry_to_come seat self.old.session plan) → IsOk result }
    {
        if let Some(refusal) = self.withheld(seat, &plan) {
            return Err(refusal);
        }
        let place = self.journal.len() as u32;
        match enter_on(
            &self.program,
            &mut self.core,
            &mut self.journal,
            &mut self.control,
            &mut self.prepared,
            &mut self.floor,
            self.limit,
            seat,
            plan,
        ) {
            Ok(_) => Ok(place),
            Err(refusal) => Err(CommitRefusal::Step { refusal }),
        }
    }

    /// Executes the step for which `prepare` took all memory, retains the claim, and returns the slot
    /// of its entry. Nothing is asked again, so this is what a worker calls that prepared the step in
    /// the same hold of a lock.
    pub fn commit_prepared(&mut self, seat: u32, plan: Plan) -> u32
        requires may { MayCommit self.old.session seat plan }
        requires prepared { self.old.prepared ≡ Some (entry_to_come seat self.old.session plan) }
        ensures place { result ≡ length self.old.session.journal }
        ensures session { self.new.session
            ≡ with_seat (with_entry self.old.session (entry_to_come seat self.old.session plan))
            seat (Some plan.config.task) }
    {
        let claim = self.control.claims.take(seat);
        let place = self.journal.len() as u32;
        let event = take_event(&mut self.prepared);
        enter_readied(
            &mut self.core,
            &mut self.journal,
            &mut self.control,
            &mut self.floor,
            seat,
            plan,
            event,
        );
        self.control.claims.set(seat, claim);
        place
    }

    /// Takes all memory for a rollback of the step by the seat, and returns the entry to come. The
    /// `roll` right after it is done, and takes none; so is the `undo`, where nothing needs the
    /// step. A refusal retains what an earlier call prepared.
    pub fn prepare_roll(&mut self, seat: u32, id: &StepId) -> Result<Entry, RollRefusal>
        ensures session { self.new.session ≡ self.old.session }
        ensures prepared { IfOk result (IsRollPrepared seat self.new id.now) }
        ensures refused { IfErr result (KeepsAll self.old.session id.now) }
        ensures kept { OnErr result (self.new ≡ self.old) }
    {
        match ready_roll(self.alloc, &self.core, &mut self.journal, self.limit, id) {
            Ok((step, ready)) => match id.clone() {
                Ok(id) => {
                    let prepared = Prepared::Roll {
                        seat,
                        id: step,
                        ready,
                    };
                    keep(&mut self.prepared, prepared);
                    Ok(Entry::Rolled { seat, id })
                }
                Err(_) => Err(RollRefusal::Memory),
            },
            Err(refusal) => Err(refusal),
        }
    }

    /// Why the seat's plan isn't looked at: the run is paused, the seat doesn't claim the task, or the
    /// plan isn't one of the program for a task that goes on.
    fn withheld(&self, seat: u32, plan: &Plan) -> Option<CommitRefusal>
        ensures some { IfSome result (RefusesCommit self.now.session seat plan.now) }
        ensures blocked { IsSome result → MayCommit self.now.session seat plan.now → ⊥ }
        ensures none { IfNone result (IsOffered self.now.session seat plan.now) }
    {
        if self.control.mode.is_paused() {
            return Some(CommitRefusal::Paused);
        }
        if !self.control.claims.is_by(seat, &plan.config.task) {
            return Some(CommitRefusal::Withdrawn);
        }
        match foreign(&self.program, &self.core, plan) {
            Some(refusal) => Some(CommitRefusal::Step { refusal }),
            None => None,
        }
    }
}
