//! No dead end: where no task can go on, all have ended.
//! A history is listed from its newest event.

ghost use Rattle.tb_model.specs.declared.action.Action.{Action};
ghost use Rattle.tb_model.specs.declared.event.Event.{Event};
ghost use Rattle.tb_model.specs.Names.{Name};
ghost use Rattle.tb_model.specs.Facts.{History, IsSpawned, HasEnded};
ghost use Rattle.tb_model.specs.Legal.{Cells, Legal};
ghost use Rattle.tb_model.specs.Program.{Program, IsNext, LegalFor};
ghost use Rattle.tb_model.specs.Stuck.{IsStuck};
ghost use Rattle.tb_model.specs.WellFormed.{WellFormed};

/// Where each unended task wants to go on, and none may, all tasks have ended.
pub fn no_dead_end()
    ensures { (cells : Cells) (H : History) (wants : Name → Action) →
        Legal cells H → IsStuck cells H wants → (t : Name) → IsSpawned H t → HasEnded H t }
{}

/// Where no task of a well-formed program has a next event, all tasks have ended.
pub fn no_dead_end_for()
    ensures { (P : Program) (H : History) → WellFormed P → LegalFor P H →
        ((v : Event) → IsNext P H v → ⊥) → (t : Name) → IsSpawned H t → HasEnded H t }
{}
