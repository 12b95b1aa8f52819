//! Laws of the definitions: which events are refused, and which texts are legal runs.

ghost use Rattle.std.specs.Prelude.{◌≡◌, ◌↔◌, ◌∷◌, ℕ, IsTrue, List, None, Ok, Option, length};
ghost use Rattle.tb_model.specs.declared.event.Event.{Event};
ghost use Rattle.tb_model.specs.Facts.{History};
ghost use Rattle.tb_model.specs.Legal.{Cells, Legal};
ghost use Rattle.tb_model.specs.Needs.{step_of};
ghost use Rattle.tb_plan.specs.Plans.{names_allowed};
ghost use Rattle.tb_verdict.specs.Recorded.{RecordsLegal};
ghost use Rattle.tb_verdict.specs.Refusals.{is_due, refusal_of};
ghost use Rattle.tb_verdict.specs.Texts.{text_judged};

/// After a legal history nothing refuses an event exactly where the history with it is legal, and
/// its step's ordinal, where one is given, is the next of its task. What the event names is in
/// range where it was read (`in_range` of `tb_runs`).
pub fn refused_exactly()
    ensures unrefused { (first : Cells) (H : History) (k : Option ℕ) (v : Event) → Legal first H →
        IsTrue (names_allowed (length first) v.action) → refusal_of first H k v ≡ None →
        IsTrue (is_due k (step_of H v).k) × Legal first (v ∷ H) }
    ensures legal { (first : Cells) (H : History) (k : Option ℕ) (v : Event) →
        Legal first (v ∷ H) → IsTrue (is_due k (step_of H v).k) → refusal_of first H k v ≡ None }
{}

/// A text is judged to be a legal run exactly where it has no fault, the history that it records is
/// legal, and each ordinal of a step that it gives is the next of its task.
pub fn legal_exactly()
    ensures { (lines : List (List ℕ)) (first : Cells) (H : History) →
        (text_judged lines ≡ Ok (first, H)) ↔ RecordsLegal lines first H }
{}
