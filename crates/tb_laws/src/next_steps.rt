//! The next step: which event it is, and what blocks it.

ghost use Rattle.std.specs.Prelude.{◌≡◌, ◌↔◌, Bool, Option, Some, None, IsTrue};
ghost use Rattle.tb_model.specs.declared.action.Action.{Action};
ghost use Rattle.tb_model.specs.declared.event.Event.{Event};
ghost use Rattle.tb_model.specs.Names.{Name};
ghost use Rattle.tb_model.specs.Facts.{History, own, IsSpawned, HasEnded};
ghost use Rattle.tb_model.specs.Legal.{Cells, Continues, MayFollow};
ghost use Rattle.tb_model.specs.LeastNames.{IsAtMost, IsLeastName};
ghost use Rattle.tb_model.specs.Program.{Program, loaded, LegalFor, IsNext};
ghost use Rattle.tb_model.specs.WellFormed.{WellFormed};
ghost use Rattle.tb_model.specs.Hindrances.{spawned_names, least_where, IsLeast, Hindrance, Hinders, in_the_way, number_read, next_event, refusal_of, can_step, least_ready};

/// One pass over the tasks finds the least that passes a test, and there is one at most: the order of
/// names ties no two.
#[tactic(auto, using(tb_model::proofs::LeastNameLemmas::least_found, tb_model::proofs::LeastNameLemmas::one_least, tb_model::proofs::LeastNameLemmas::at_most_both))]
pub fn least()
    ensures found { (H : History) (p : Name → Bool) → ((u : Name) → IsTrue (p u) → IsSpawned H u) →
        IsLeast p (least_where p (spawned_names H)) }
    ensures one { (p : Name → Bool) (o q : Option Name) → IsLeast p o → IsLeast p q → o ≡ q }
    ensures antisymmetric { (t u : Name) → IsAtMost t u → IsAtMost u t → t ≡ u }
{}

/// What blocks a task's action is the first hindrance in the order of refusals, and names the least
/// task of its kind.
#[tactic(auto, using(tb_model::proofs::HindranceLemmas::in_the_way_hinders))]
pub fn in_the_way()
    ensures { (H : History) (t : Name) (a : Action) (h : Hindrance) →
        (in_the_way H t a ≡ Some h) ↔ Hinders H t a h }
{}

/// Nothing is in the way exactly where the event may follow, once it fits the task's own actions
/// and reads its cell.
#[tactic(auto, using(tb_model::proofs::HindranceLemmas::nothing_in_the_way))]
pub fn nothing_in_the_way()
    ensures { (cells : Cells) (H : History) (t : Name) (a : Action) → IsSpawned H t →
        Continues cells t (own t H) a → loaded a ≡ number_read cells H a →
        (in_the_way H t a ≡ None) ↔ MayFollow cells H (record { task = t; action = a }) }
{}

/// A next event is the one that is computed from its task.
#[tactic(auto, using(crate::proofs::NextStepLemmas::next_computed))]
pub fn next_computed()
    ensures { (P : Program) (H : History) (v : Event) → IsNext P H v → v ≡ next_event P H v.task }
{}

/// A task has a next event exactly where its step isn't refused.
#[tactic(auto, using(crate::proofs::NextStepLemmas::can_next, crate::proofs::NextStepLemmas::refused_next, crate::proofs::NextStepLemmas::next_isnt_refused))]
pub fn can_step()
    ensures able { (P : Program) (H : History) (t : Name) → WellFormed P → LegalFor P H →
        IsTrue (can_step P H t) ↔ IsNext P H (next_event P H t) }
    ensures unrefused { (P : Program) (H : History) (t : Name) → WellFormed P → LegalFor P H →
        (refusal_of P H t ≡ None) ↔ IsNext P H (next_event P H t) }
    ensures none_refused { (P : Program) (H : History) (v : Event) → WellFormed P → LegalFor P H →
        IsNext P H v → refusal_of P H v.task ≡ None }
{}

/// The least task that can step is the least that has a next event; none can exactly where all have
/// ended.
#[tactic(auto, using(crate::proofs::NextStepLemmas::least_next, crate::proofs::NextStepLemmas::done_ended))]
pub fn least_ready()
    ensures least { (P : Program) (H : History) → WellFormed P → LegalFor P H →
        IsLeastName (λ t. IsNext P H (next_event P H t)) (least_ready P H) }
    ensures none { (P : Program) (H : History) → WellFormed P → LegalFor P H →
        (least_ready P H ≡ None) ↔ ((t : Name) → IsSpawned H t → HasEnded H t) }
{}
