//! The laws of races: what one finished run says of all runs. Each is a sentence over the
//! definitions of `tb_model` and `tb_races` alone, and a function's contract, since what no contract
//! says stays unproved. A history is listed from its newest event.

ghost use Rattle.std.specs.Prelude.{◌≡◌, ◌↔◌, ◌≤◌, List, [], ◌∷◌, ◌++◌, length, Some, None, IsTrue};
ghost use Rattle.tb_model.specs.declared.event.Event.{Event};
ghost use Rattle.tb_model.specs.Facts.{History};
ghost use Rattle.tb_model.specs.SameState.{SameState};
ghost use Rattle.tb_model.specs.WellFormed.{WellFormed};
ghost use Rattle.tb_model.specs.Program.{Program, LegalFor};
ghost use Rattle.tb_model.specs.Needs.{step_of};
ghost use Rattle.tb_races.specs.declared.race.Race.{Race};
ghost use Rattle.tb_races.specs.Orders.{Order, Synchronised, WithExclusion, ComesAfter, comes_after};
ghost use Rattle.tb_races.specs.Racing.{IsRace, race_of, races};
ghost use Rattle.tb_one_run.specs.Rows.{IsRow};
ghost use Rattle.tb_one_run.specs.Outcomes.{IsFinished, HasRace, leading, IsReal};

/// The pass over a history finds exactly what an order puts in front of an event.
#[tactic(auto, using(tb_races::proofs::PassLemmas::found_by_pass))]
pub fn order_by_pass()
    ensures { (o : Order) (later : History) (v u : Event) (front : History) →
        IsTrue (comes_after o (step_of front u) (later ++ u ∷ front) v)
        ↔ ComesAfter o (v ∷ (later ++ u ∷ front)) (u ∷ front) }
{}

/// No race is listed exactly where there is none, apart or not.
#[tactic(auto, using(crate::proofs::ListedLemmas::listed))]
pub fn listed()
    ensures { (H : History) → (races H ≡ []) ↔ (HasRace Synchronised H → ⊥) }
{}

/// Of an event that has a race `races` names the newest earlier one with which it has a race that
/// isn't apart, else the newest with which it has one, and then it says apart. Of one that has none
/// it names nothing.
pub fn rows()
    ensures named { (H : History) (v : Event) (r : Race) → race_of H v ≡ Some r → IsRow H v r }
    ensures none { (H : History) (v : Event) →
        (race_of H v ≡ None) ↔ ((G : History) → IsRace Synchronised (v ∷ H) G → ⊥) }
{}

/// One outcome: where a run after which no task can step has no race, apart or not, every run of
/// the program is no longer, and every one after which no task can step leaves the same state.
pub fn one_outcome()
    ensures no_longer { (P : Program) (H K : History) → WellFormed P → LegalFor P H →
        IsFinished P H → (HasRace Synchronised H → ⊥) → LegalFor P K → length K ≤ length H }
    ensures same_state { (P : Program) (H K : History) → WellFormed P → LegalFor P H →
        IsFinished P H → (HasRace Synchronised H → ⊥) → LegalFor P K → IsFinished P K →
        SameState H K }
{}

/// Races don't depend on the schedule: of two runs of a program after which no task can step,
/// either both have a race, apart or not, or neither has.
pub fn every_schedule()
    ensures { (P : Program) (H K : History) → WellFormed P → LegalFor P H → IsFinished P H →
        LegalFor P K → IsFinished P K → HasRace Synchronised H ↔ HasRace Synchronised K }
{}

/// The first race is real: where f is the first event that has a race that isn't apart, and e is
/// one with which it has such a race, the events that the order with exclusion puts in front of
/// either are a run of the program, after which both tasks can step next: the one to e, the other
/// to f. Where f is a load it may read another value there.
pub fn first_race()
    ensures { (P : Program) (f e : Event) (F E : History) → LegalFor P (f ∷ F) →
        IsRace WithExclusion (f ∷ F) (e ∷ E) → (HasRace WithExclusion F → ⊥) →
        IsReal P (leading WithExclusion (f ∷ F) (e ∷ E) F) e f }
{}
