//! The loop lemma (Danos and Krivine, CONCUR 2004): a step and its undo, in either order.
//! A history is listed from its newest event.

ghost use Rattle.std.specs.Prelude.{◌≡◌, ◌∷◌, ◌++◌, ℕ, List};
ghost use Rattle.tb_model.specs.declared.event.Event.{Event};
ghost use Rattle.tb_model.specs.Names.{Name};
ghost use Rattle.tb_model.specs.Facts.{History};
ghost use Rattle.tb_model.specs.Legal.{Cells, Legal};
ghost use Rattle.tb_model.specs.Needs.{without, step_of};
ghost use Rattle.tb_model.specs.Program.{Program, IsNext, LegalFor};
ghost use Rattle.tb_model.specs.Lines.{Departure, events_of, line_of};
ghost use Rattle.tb_model.specs.Reordering.{IsReordering, IsReorderingFor, IsUnneeded};

/// A step followed by its undo leaves the history as it was.
#[tactic(auto, using(tb_model::proofs::RemovalLemmas::without_newest))]
pub fn step_then_undo()
    ensures { (H : History) (v : Event) → without (step_of H v) (v ∷ H) ≡ H }
{}

/// The undo of a step that nothing needs removes that step alone, wherever it is. Executed again it
/// is at the end, and all else is as before.
pub fn undo_then_step()
    ensures undone { (later front : History) (v : Event) →
        IsUnneeded (step_of front v) (later ++ v ∷ front) →
        without (step_of front v) (later ++ v ∷ front) ≡ later ++ front }
    ensures again { (cells : Cells) (later front : History) (v : Event) →
        Legal cells (later ++ v ∷ front) → IsUnneeded (step_of front v) (later ++ v ∷ front) →
        IsReordering cells (later ++ v ∷ front) (v ∷ (later ++ front)) }
{}

/// Executed again, it leaves each task at its line.
#[tactic(auto, using(tb_model::proofs::LinesLemmas::line_again))]
pub fn line_again()
    ensures { (body : ℕ) (t : Name) (later front : List Departure) (d : Departure) →
        IsUnneeded (step_of (events_of front) d.event)
        (events_of later ++ d.event ∷ events_of front) →
        line_of body t (later ++ d ∷ front) ≡ line_of body t (d ∷ (later ++ front)) }
{}

/// For a program the step that was undone is its task's next one, with the same values.
pub fn undo_then_next()
    ensures next { (P : Program) (later front : History) (v : Event) →
        LegalFor P (later ++ v ∷ front) → IsUnneeded (step_of front v) (later ++ v ∷ front) →
        IsNext P (later ++ front) v }
    ensures again { (P : Program) (later front : History) (v : Event) →
        LegalFor P (later ++ v ∷ front) → IsUnneeded (step_of front v) (later ++ v ∷ front) →
        IsReorderingFor P (later ++ v ∷ front) (v ∷ (later ++ front)) }
{}
