//! Changes of a run for which all is prepared.

ghost use Rattle.std.specs.Prelude.{◌≡◌, ◌<◌, ◌^◌, Some, Err, IfOk, IfErr, OnOk, length};
ghost use Rattle.tb_model.specs.declared.entry.Entry.TheVariants.{Rolled};
ghost use Rattle.tb_live.specs.Commits.{MayCommit, entry_to_come};
ghost use Rattle.tb_live.specs.Moves.{IsRollPrepared, KeepsAll, MayUndo, RollsFor, UndoesFor, UndoneFor};
ghost use Rattle.tb_live.specs.Session.{with_entry};

use tb_live::{Live, Removed, RollRefusal, UndoRefusal};
use tb_model::{Entry, StepId};
use tb_plan::Plan;

/// The slot of the entry to come.
pub fn next_place(live: &Live) -> u32
    requires { length live.now.session.journal < 2 ^ 32 }
    ensures { result ≡ length live.now.session.journal }
{
    live.journal().len() as u32
}

/// Executes the step that is prepared, and answers its entry's slot.
pub fn take_step(live: &mut Live, seat: u32, plan: Plan) -> u32
    requires may { MayCommit live.old.session seat plan }
    requires prepared { live.old.prepared ≡ Some (entry_to_come seat live.old.session plan) }
    ensures place { result ≡ length live.old.session.journal }
    ensures session { live.new.session ≡ with_entry live.old.session (entry_to_come seat live.old.session plan) }
{
    match live.commit(seat, plan) {
        Ok(place) => place,
        Err(_) => unreachable!(),
    }
}

/// Takes the step back for which that is prepared, and all that need it.
pub fn take_back_all(live: &mut Live, seat: u32, id: &StepId) -> Vec<Removed>
    requires prepared { live.old.prepared ≡ Some (Rolled seat id.now) }
    ensures session { live.new.session ≡ with_entry live.old.session (Rolled seat id.now) }
    ensures rolled { RollsFor seat live.old.session id.now live.new.session result.items }
{
    match live.roll(seat, id) {
        Ok(removed) => removed,
        Err(_) => unreachable!(),
    }
}

/// Takes the one step back for which that is prepared.
pub fn take_back(live: &mut Live, seat: u32, id: &StepId) -> Removed
    requires may { MayUndo live.old.session id.now }
    requires prepared { live.old.prepared ≡ Some (Rolled seat id.now) }
    ensures session { live.new.session ≡ with_entry live.old.session (Rolled seat id.now) }
    ensures undone { UndoesFor seat live.old.session id.now live.new.session result }
{
    match live.undo(seat, id) {
        Ok(removed) => removed,
        Err(_) => unreachable!(),
    }
}

/// Takes all memory for an undo of the step, and returns the entry to come.
pub fn ready_undo(live: &mut Live, seat: u32, id: &StepId) -> Result<Entry, UndoRefusal>
    ensures session { live.new.session ≡ live.old.session }
    ensures may { OnOk result (MayUndo live.new.session id.now) }
    ensures prepared { IfOk result (IsRollPrepared seat live.new id.now) }
    ensures refused { IfErr result (λ e. UndoneFor seat live.old.session id.now live.old.session (Err e)) }
{
    if let Some(refusal) = live.core().keeps(id) {
        return Err(refusal);
    }
    match live.prepare_roll(seat, id) {
        Ok(entry) => Ok(entry),
        Err(RollRefusal::NoSuchStep) => Err(UndoRefusal::NoSuchStep),
        Err(RollRefusal::Full) => Err(UndoRefusal::Full),
        Err(RollRefusal::Memory) => Err(UndoRefusal::Memory),
    }
}
