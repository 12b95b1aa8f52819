//! The laws of races for every behaviour: for tasks that go by nothing but how they were spawned, what they did, and what
//! they load. Each is a sentence over the definitions alone, and a function's contract. That what was recorded of a program
//! is all that its tasks load, store, spawn and wait for is a premise of whoever applies them to it.

ghost use Rattle.std.specs.Prelude.{◌≤◌, ◌∷◌, ◌↔◌, length};
ghost use Rattle.tb_model.specs.declared.event.Event.{Event};
ghost use Rattle.tb_model.specs.Facts.{History};
ghost use Rattle.tb_model.specs.SameState.{SameState};
ghost use Rattle.tb_model.specs.Program.{Program, LegalFor, IsNext};
ghost use Rattle.tb_races.specs.Orders.{Synchronised, WithExclusion};
ghost use Rattle.tb_races.specs.Racing.{IsRace};
ghost use Rattle.tb_one_run.specs.Outcomes.{HasRace, leading};
ghost use Rattle.tb_one_run.specs.Behaviours.{Behaviour, IsRunOf, IsNextOf, IsOver, IsRealOf};

/// A program of the notation is a behaviour.
pub fn programs()
    ensures { (P : Program) → (B : Behaviour)
        × ((H : History) → LegalFor P H ↔ IsRunOf B H)
        × ((H : History) (v : Event) → IsNext P H v ↔ IsNextOf B H v) }
{}

/// One outcome: where a run in which each task has ended has no race, apart or not, every run of the behaviour is no
/// longer, and every one in which each task has ended leaves the same state.
pub fn one_outcome()
    ensures no_longer { (B : Behaviour) (H K : History) → IsRunOf B H → IsOver H →
        (HasRace Synchronised H → ⊥) → IsRunOf B K → length K ≤ length H }
    ensures same_state { (B : Behaviour) (H K : History) → IsRunOf B H → IsOver H →
        (HasRace Synchronised H → ⊥) → IsRunOf B K → IsOver K → SameState H K }
{}

/// Races don't depend on the schedule: of two runs in which each task has ended, either both have a race, apart or not,
/// or neither has.
pub fn every_schedule()
    ensures { (B : Behaviour) (H K : History) → IsRunOf B H → IsOver H → IsRunOf B K → IsOver K →
        HasRace Synchronised H ↔ HasRace Synchronised K }
{}

/// The first race is real: take the first step f of a run that has a race that isn't apart, and any
/// step e with which it has such a race. What the order with exclusion puts in front of e or of f
/// is a run, after which both tasks can step next: the one to e, the other to f, which may read
/// another value there.
pub fn first_race()
    ensures { (B : Behaviour) (f e : Event) (F E : History) → IsRunOf B (f ∷ F) →
        IsRace WithExclusion (f ∷ F) (e ∷ E) → (HasRace WithExclusion F → ⊥) →
        IsRealOf B (leading WithExclusion (f ∷ F) (e ∷ E) F) e f }
{}
