//! Steps that are taken back, one that nothing needs or one with all that need it.

ghost use Rattle.std.specs.Prelude.{◌≡◌, IfErr, IfNone, IfOk, IfSome, IsOk, OnErr, OnOk};
ghost use Rattle.tb_core.specs.Outcomes.{IsFree, IsPlaceOfStep, TakesBack, Keeps, Undone};
ghost use Rattle.tb_core.specs.Rolled.{IsOfHistory, RollsBack};
ghost use Rattle.tb_core.specs.Seen.{history};

use super::Core;
use crate::history::History;
use crate::needing::first_needer;
use crate::places::{place_in, step_among};
use crate::removed::Removed;
use crate::renumbering::renumber;
use crate::rollback::Rollback;
use crate::undo_refusal::UndoRefusal;
use crate::unwinding::{take_back, unwind};
use tb_model::StepId;

impl Core {
    /// Takes the stored step at this index out, of a step that nothing needs.
    fn take_out(&mut self, at: usize, id: StepId) -> Removed
        requires free { IsFree self.old.run id }
        requires here { IsPlaceOfStep self.old.run id at }
        ensures { TakesBack self.old.run id self.new.run result }
    {
        self.reserved = None;
        renumber(
            &mut self.places,
            &self.tables,
            self.entries.as_slice(),
            &[at as u32],
        );
        let entry = self.entries.remove(at);
        take_back(&mut self.tables, entry, id)
    }

    /// The index of a step that nothing needs.
    fn free_place(&self, id: &StepId) -> Result<usize, UndoRefusal>
        ensures place { IfOk result (IsPlaceOfStep self.now.run id.now) }
        ensures free { OnOk result (IsFree self.now.run id.now) }
        ensures kept { IfErr result (Keeps self.now.run id.now) }
    {
        let own = self.places.events_of(self.tables.place(&id.task));
        let entries = History::of(self.entries.as_slice(), &self.tables, &self.places);
        let Some(at) = place_in(own, &entries, id) else {
            return Err(UndoRefusal::NoSuchStep);
        };
        let Some(by) = first_needer(&entries, at) else {
            return Ok(at);
        };
        let own = self.places.events_of(self.tables.place(entries.task(by)));
        match step_among(own, &entries, by) {
            Ok(by) => Err(UndoRefusal::Needed { by }),
            Err(_) => Err(UndoRefusal::Memory),
        }
    }

    /// Why the step stays, if it does: it isn't there, or something needs it.
    pub fn keeps(&self, id: &StepId) -> Option<UndoRefusal>
        ensures some { IfSome result (Keeps self.now.run id.now) }
        ensures none { IfNone result (IsFree self.now.run id.now) }
    {
        self.free_place(id).err()
    }

    /// Takes a step back that nothing needs, wherever it is. Where memory is refused that is done too,
    /// maybe more slowly. Its index is known. The name that is handed in is returned in the answer.
    pub fn undo(&mut self, id: StepId) -> Result<Removed, UndoRefusal>
        ensures undone { Undone self.old.run id self.new.run result }
        ensures err { OnErr result (self.new ≡ self.old) }
        ensures succeeds { IsFree self.old.run id → IsOk result }
    {
        match self.free_place(&id) {
            Ok(at) => Ok(self.take_out(at, id)),
            Err(refusal) => Err(refusal),
        }
    }

    /// Takes a step back with all that need it, each by its own record, from the newest on. It
    /// takes no memory, and what is after the first of them is moved once.
    pub fn take_out_all(&mut self, rollback: Rollback) -> Vec<Removed>
        requires { IsOfHistory (history self.old.run) rollback }
        ensures { RollsBack self.old.run rollback.step self.new.run result.items }
    {
        self.reserved = None;
        renumber(
            &mut self.places,
            &self.tables,
            self.entries.as_slice(),
            rollback.places.as_slice(),
        );
        let mut removed = unwind(&mut self.entries, &mut self.tables, rollback);
        removed.reverse();
        removed
    }
}
