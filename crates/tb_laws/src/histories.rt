//! Which histories are legal, and which are runs of a program.
//! A history is listed from its newest event.

ghost use Rattle.std.specs.Prelude.{◌≡◌, ◌∷◌, ◌↔◌, map};
ghost use Rattle.tb_model.specs.declared.event.Event.{Event};
ghost use Rattle.tb_model.specs.Facts.{History};
ghost use Rattle.tb_model.specs.Legal.{Cells, Legal};
ghost use Rattle.tb_model.specs.Rules.{Rules};
ghost use Rattle.tb_model.specs.Program.{Program, IsNext, LegalFor};

/// A history is legal, event by event, exactly where it meets the eight rules over the whole list.
pub fn reading()
    ensures { (cells : Cells) (H : History) → Legal cells H ↔ Rules cells H }
{}

/// A task's next event is the one after which the history is still legal for the program.
pub fn next_is_legal()
    ensures { (P : Program) (H : History) (v : Event) →
        LegalFor P H → IsNext P H v ↔ LegalFor P (v ∷ H) }
{}

/// A task has at most one next event.
#[tactic(auto, using(tb_model::proofs::NextLemmas::one_next))]
pub fn one_next()
    ensures { (P : Program) (H : History) (v w : Event) →
        IsNext P H v → IsNext P H w → v.task ≡ w.task → v ≡ w }
{}

/// A run is settled by who executes its steps: there is one legal history with a given sequence of
/// tasks.
#[tactic(auto, using(tb_model::proofs::ForProgramLemmas::one_run))]
pub fn one_run()
    ensures { (P : Program) (G H : History) → LegalFor P G → LegalFor P H →
        map (λ (v : Event). v.task) G ≡ map (λ (v : Event). v.task) H → G ≡ H }
{}
