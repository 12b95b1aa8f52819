//! A live run: the program, the core, the journal, and what it has besides.

mod claiming;
mod committing;
mod ending;
mod inside;
mod pausing;
mod running;
mod state;

ghost use Rattle.std.specs.Prelude.{◌≡◌, ◌<◌, ◌≤◌, ℕ, IfOk, IfErr, OnErr, IfSome, IfNone, IsOk, Some, None, length, reverse, slice_get};
ghost use Rattle.std.specs.Option.{option_copied};
ghost use Rattle.tb_model.specs.declared.entry.Entry.TheVariants.{Rolled};
ghost use Rattle.tb_model.specs.State.{printed};
ghost use Rattle.tb_control.specs.Claims.{claim_of, AreLawful};
ghost use Rattle.tb_live.specs.Session.{opened, with_seat, history, is_full, cell_numbers};
ghost use Rattle.tb_next.specs.Newest.{last_store, last_print};
ghost use Rattle.tb_live.specs.Moves.{StepsBy, LeastStepsBy, LeastStepsFor, UndoneFor, RollsFor, KeepsAll, Hinders, refusal_for, MayUndo};

use crate::prepared::{Prepared, forget, take_roll};
use crate::rolling::enter_roll;
use crate::stepping::{enter_apart, enter_clear, enter_step, for_least};
use crate::undoing::enter_undo;
pub use ending::end;
use std::alloc::{AllocError, Global};
use std::marker::Model;
use tb_control::{Breakpoints, Claims, Control, Mode};
use tb_core::{Core, Removed, StepRefusal, UndoRefusal};
use tb_journal::Journal;
use tb_model::{Action, StepId, TaskName};
use tb_next::{
    Floor, coming_of, known_coming, least_behind, least_wanting, newest_print, newest_store,
    refusal_of, wanting,
};
use tb_read::Program;
use tb_roll::RollRefusal;

/// A program, its run so far, and the journal of all that was done.
#[derive(Drop)]
pub struct Live {
    alloc: Global,
    program: Program,
    core: Core,
    journal: Journal,
    control: Control,
    limit: u32,
    // what the next change finds prepared
    prepared: Option<Prepared>,
    // where the look for a task that can step begins
    floor: Floor,
}

impl Model for Live {
    ghost use Rattle.std.specs.Prelude.{reverse, option_map};
    ghost use Rattle.tb_live.specs.Session.{Held};
    ghost use Rattle.tb_live.specs.Soundness.{IsSound, IsLawful};
    ghost use Rattle.tb_live.specs.Preparing.{HasRoom, entry_of};
    ghost use Rattle.tb_next.specs.Floor.{IsFloor};
    ghost use Rattle.tb_core.specs.Seen.{history};

    ghost Value = { Held };

    ghost view = { λ l. record { session = record { program = l.program; limit = l.limit; journal = reverse l.journal.items; control = l.control }; prepared = option_map entry_of l.prepared } };

    ghost invariant = { λ l. IsSound l.program l.limit (reverse l.journal.items) l.core.run × IsLawful (reverse l.journal.items) l.control × HasRoom l.limit l.program l.core l.journal.items l.journal.room l.prepared × IsFloor l.program (history l.core.run) l.floor };
}

impl Live {
    /// A run in front of its first step, for so many seats. The journal has one entry, of at most
    /// `limit`.
    pub fn open(alloc: Global, program: Program, limit: u32, seats: u32) -> Result<Live, AllocError>
        requires some { 1 ≤ limit }
        requires bound { limit ≤ 1000000 }
        requires seats { seats ≤ 65 }
        ensures { IfOk result (λ live. live.session ≡ opened program limit seats) }
    {
        let claims = Claims::none(alloc, seats)?;
        let journal = Journal::open(alloc)?;
        // last, so that no error drops a core with its tables
        let core = Core::open(alloc, program.cells(), program.root_line(), limit)?;
        let control = Control {
            claims,
            breakpoints: Breakpoints::new(alloc),
            mode: Mode::Resumed,
        };
        Ok(Live {
            alloc,
            program,
            core,
            journal,
            control,
            limit,
            prepared: None,
            floor: Floor::none(),
        })
    }

    /// The program.
    pub fn program(&self) -> &Program
        ensures { result.now ≡ self.now.session.program }
    {
        &self.program
    }

    /// The cells' values, in order.
    pub fn cells(&self) -> &[i64]
        ensures { result.now ≡ cell_numbers self.now.session }
    {
        self.core.cells()
    }

    /// The printed values, in order.
    pub fn output(&self) -> &[i64]
        ensures { result.now ≡ reverse (printed (history self.now.session)) }
    {
        self.core.output()
    }

    /// The newest step that is there: the task that took it, and what it did.
    pub fn newest(&self) -> Option<(&TaskName, &Action)>
        ensures some { IfSome result (λ p. slice_get (history self.now.session) 0
            ≡ Some (record { task = p.0.now; action = p.1.now })) }
        ensures none { IfNone result (slice_get (history self.now.session) 0 ≡ None) }
    {
        self.core.newest()
    }

    /// Whether the journal has no slot for one more entry.
    pub fn is_full(&self) -> bool
        ensures { result ≡ is_full self.now.session }
    {
        self.limit as usize <= self.journal.len()
    }

    /// The task that the seat claims. It is there, and no other seat claims it.
    pub fn claim_of(&self, seat: u32) -> Option<&TaskName>
        ensures claim { option_copied result ≡ claim_of self.now.session.control.claims seat }
        ensures lawful { AreLawful (history self.now.session) self.now.session.control.claims }
    {
        self.control.claims.of(seat)
    }

    /// Ends the seat's claim.
    pub fn let_go(&mut self, seat: u32)
        requires { seat < length self.old.session.control.claims }
        ensures { self.new.session ≡ with_seat self.old.session seat None }
    {
        self.control.claims.let_go(seat);
    }

    /// Executes the next step of a task, for seat 0. Want of memory comes last. A refusal retains
    /// what is prepared.
    pub fn step(&mut self, task: &TaskName) -> Result<StepId, StepRefusal>
        ensures stepped { StepsBy self.old.session task.now self.new.session result }
        ensures kept { OnErr result (self.new ≡ self.old) }
    {
        let coming = match coming_of(self.alloc, &self.program, &self.core, task) {
            Ok(coming) => coming,
            Err(StepRefusal::Memory) => {
                let full = self.is_full();
                return Err(wanting(&self.program, &self.core, full, task));
            }
            Err(refusal) => return Err(refusal),
        };
        enter_step(
            &mut self.core,
            &mut self.journal,
            &mut self.control,
            &mut self.prepared,
            &mut self.floor,
            self.limit,
            0,
            task,
            coming,
        )
    }

    /// Executes the next step of the least task that can step, for seat 0; None where all tasks
    /// have ended.
    #[inline(always)]
    pub fn step_least(&mut self) -> Result<Option<StepId>, StepRefusal>
        ensures stepped { LeastStepsBy self.old.session self.new.session result }
        ensures kept { OnErr result (self.new ≡ self.old) }
    {
        self.step_least_for(0)
    }

    /// Executes the next step of the least task that can step, for any seat, whatever the claims;
    /// None where all have ended. The mode counts it, and pauses at a breakpoint.
    pub fn step_least_for(&mut self, seat: u32) -> Result<Option<StepId>, StepRefusal>
        ensures stepped { LeastStepsFor seat self.old.session self.new.session result }
        ensures kept { OnErr result (self.new ≡ self.old) }
    {
        match known_coming(self.alloc, &self.program, &self.core, &self.floor) {
            Ok(Some(found)) => for_least(enter_clear(
                &mut self.core,
                &mut self.journal,
                &mut self.control,
                &mut self.prepared,
                &mut self.floor,
                self.limit,
                seat,
                found.0,
                found.1,
            )),
            Ok(None) => {
                match least_behind(self.alloc, &self.program, &self.core, &mut self.floor) {
                    Ok(Some(found)) => for_least(enter_apart(
                        &mut self.core,
                        &mut self.journal,
                        &mut self.control,
                        &mut self.prepared,
                        &mut self.floor,
                        self.limit,
                        seat,
                        found,
                    )),
                    Ok(None) => Ok(None),
                    Err(_) => self.least_refused(),
                }
            }
            Err(_) => self.least_refused(),
        }
    }

    /// Why no least task executes a step where memory for the look was refused.
    #[inline(never)]
    fn least_refused(&self) -> Result<Option<StepId>, StepRefusal>
        ensures { (seat : ℕ) → LeastStepsFor seat self.now.session self.now.session result }
    {
        let full = self.is_full();
        Err(least_wanting(&self.program, &self.core, full))
    }

    /// Why the task's next step would be refused now, a full journal aside.
    pub fn refusal(&self, task: &TaskName) -> Result<Option<StepRefusal>, AllocError>
        ensures some { IfOk result (λ o. IfSome o (Hinders self.now.session task.now)) }
        ensures none { IfOk result (λ o. IfNone o (refusal_for self.now.session task.now ≡ None)) }
    {
        let mut near = None;
        self.walk_refusal(&mut near, task)
    }

    /// Why the task's next step would be refused now, a full journal aside, in a walk over tasks:
    /// `near` hands on where the last one was found, at first none.
    pub fn walk_refusal(
        &self,
        near: &mut Option<usize>,
        task: &TaskName,
    ) -> Result<Option<StepRefusal>, AllocError>
        ensures some { IfOk result (λ o. IfSome o (Hinders self.now.session task.now)) }
        ensures none { IfOk result (λ o. IfNone o (refusal_for self.now.session task.now ≡ None)) }
    {
        refusal_of(self.alloc, &self.program, &self.core, near, task)
    }

    /// Takes a step back that nothing needs, for the seat. The step is looked for once, where its
    /// rollback isn't prepared. A refusal changes nothing, and retains what is prepared.
    pub fn undo(&mut self, seat: u32, id: &StepId) -> Result<Removed, UndoRefusal>
        ensures undone { UndoneFor seat self.old.session id.now self.new.session result }
        ensures kept { OnErr result (self.new ≡ self.old) }
        ensures room { MayUndo self.old.session id.now
            → self.old.prepared ≡ Some (Rolled seat id.now) → IsOk result }
    {
        if self.is_full() {
            return Err(self.core.keeps(id).unwrap_or(UndoRefusal::Full));
        }
        match enter_undo(
            &mut self.core,
            &mut self.journal,
            &mut self.prepared,
            seat,
            id,
        ) {
            Ok(removed) => {
                self.floor.forget();
                self.control.step_removed(&removed);
                Ok(removed)
            }
            Err(refusal) => Err(refusal),
        }
    }

    /// Takes a step back with all that need it, for the seat, and returns them in the order of the
    /// history, the chosen one first. A refusal changes nothing, and retains what is prepared.
    pub fn roll(&mut self, seat: u32, id: &StepId) -> Result<Vec<Removed>, RollRefusal>
        ensures rolled { IfOk result (λ removed. RollsFor seat self.old.session id.now self.new.session removed.items) }
        ensures refused { IfErr result (λ e. (self.new.session ≡ self.old.session) × KeepsAll self.old.session id.now e) }
        ensures kept { OnErr result (self.new ≡ self.old) }
        ensures room { self.old.prepared ≡ Some (Rolled seat id.now) → IsOk result }
    {
        let readied = take_roll(&mut self.prepared, seat, id);
        match enter_roll(
            self.alloc,
            &mut self.core,
            &mut self.journal,
            self.limit,
            seat,
            readied,
            id,
        ) {
            Ok(removed) => {
                forget(&mut self.prepared);
                self.floor.forget();
                self.control.steps_removed(&removed);
                Ok(removed)
            }
            Err(refusal) => Err(refusal),
        }
    }

    /// The last store to the cell.
    pub fn last_store(&self, cell: u32) -> Result<Option<StepId>, AllocError>
        ensures { IfOk result (λ id. id ≡ last_store cell (history self.now.session)) }
    {
        let entries = self.core.legal_entries();
        newest_store(self.core.touches(cell), &entries, cell)
    }

    /// The last print.
    pub fn last_print(&self) -> Result<Option<StepId>, AllocError>
        ensures { IfOk result (λ id. id ≡ last_print (history self.now.session)) }
    {
        let entries = self.core.legal_entries();
        newest_print(self.core.prints(), &entries)
    }
}
