//! Claims of seats on tasks.

ghost use Rattle.std.specs.Prelude.{◌≡◌, ◌<◌, IfOk, IsOk, OnErr, IsTrue, length};
ghost use Rattle.tb_live.specs.Working.{ClaimsTask, ClaimsWork, IsOffered, OffersDone, SaysDone, is_stopped};
ghost use Rattle.tb_read.specs.Meaning.{IsPosition};
ghost use Rattle.tb_read.specs.Strips.{IsStripOf};

use super::Live;
use std::alloc::AllocError;
use tb_control::ClaimRefusal;
use tb_model::TaskName;
use tb_next::{Claim, Offer, Situated, Work, barred, named_offer, strip_at, taken_on};

impl Live {
    /// How many seats there are. They count from 0.
    pub fn seats(&self) -> u32
        ensures { result ≡ length self.now.session.control.claims }
    {
        self.control.claims.seats()
    }

    /// Gives the seat a claim on the task in place of its former one, whatever the mode and the
    /// journal. It retains what is prepared, as a refusal does.
    pub fn claim_task(&mut self, seat: u32, task: &TaskName) -> Result<Work, ClaimRefusal>
        requires { seat < length self.old.session.control.claims }
        ensures claimed { ClaimsTask self.old.session seat task.now self.new.session result }
        ensures kept { OnErr result (self.new ≡ self.old) }
        ensures prepared { self.new.prepared ≡ self.old.prepared }
    {
        if let Some(refusal) = barred(&self.core, &self.control.claims, seat, task) {
            return Err(refusal);
        }
        match taken_on(&self.program, &self.core, task) {
            Ok((name, work)) => {
                self.control.claims.give(seat, name);
                Ok(work)
            }
            Err(_) => Err(ClaimRefusal::Memory),
        }
    }

    /// Gives up the seat's former claim, and gives it one on the least task that can step and that
    /// no other seat claims. It answers Done exactly where all tasks have ended or faulted, but for
    /// a run that is paused, or whose journal is full: that one is stopped, and takes no memory to
    /// say so. What is prepared is retained.
    pub fn claim(&mut self, seat: u32) -> Result<Claim, AllocError>
        requires { seat < length self.old.session.control.claims }
        ensures ok { IfOk result (ClaimsWork self.old.session seat self.new.session) }
        ensures done { IfOk result (SaysDone self.old.session) }
        ensures err { OnErr result (self.new ≡ self.old) }
        ensures stopped { IsTrue (is_stopped self.old.session) → IsOk result }
        ensures prepared { self.new.prepared ≡ self.old.prepared }
    {
        match self.offer(seat) {
            Ok(Offer::Task(task)) => Ok(Claim::Work(self.work_on(task))),
            Ok(Offer::Later) => Ok(Claim::Later),
            Ok(Offer::Done) => Ok(Claim::Done),
            Ok(Offer::Stopped) => Ok(Claim::Stopped),
            Err(err) => Err(err),
        }
    }

    /// Claims as `claim` does, and leaves the private statements around the task's next one out. So
    /// it costs a seat that executes one step less.
    pub fn offer(&mut self, seat: u32) -> Result<Offer, AllocError>
        requires { seat < length self.old.session.control.claims }
        ensures ok { IfOk result (IsOffered self.old.session seat self.new.session) }
        ensures done { IfOk result (OffersDone self.old.session) }
        ensures err { OnErr result (self.new ≡ self.old) }
        ensures stopped { IsTrue (is_stopped self.old.session) → IsOk result }
        ensures prepared { self.new.prepared ≡ self.old.prepared }
    {
        if self.control.mode.is_paused() || self.is_full() {
            self.control.claims.let_go(seat);
            return Ok(Offer::Stopped);
        }
        match named_offer(
            self.alloc,
            &self.program,
            &self.core,
            &self.control.claims,
            &mut self.floor,
            seat,
        ) {
            Ok((name, offer)) => {
                self.control.claims.set(seat, name);
                Ok(offer)
            }
            Err(_) => Err(AllocError),
        }
    }

    /// The task's statement with the private ones around it.
    fn work_on(&self, task: Situated) -> Work
        requires { IsPosition self.now.session.program task.config.at }
        ensures instr { result.instr ≡ task.instr }
        ensures config { result.config ≡ task.config }
        ensures strip { IsStripOf self.now.session.program task.config.at result.strip }
    {
        let strip = strip_at(&self.program, task.config.at);
        Work {
            instr: task.instr,
            config: task.config,
            strip,
        }
    }
}
