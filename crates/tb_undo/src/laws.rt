//! Laws of what a step replaces, and of what is left without it.

ghost use Rattle.std.specs.Prelude.{◌≡◌, ◌∷◌, ◌++◌, ℕ, List};
ghost use Rattle.tb_model.specs.Legal.{Cells};
ghost use Rattle.tb_model.specs.Lines.{Departure, events_of, without_lines};
ghost use Rattle.tb_model.specs.Needs.{step_of};
ghost use Rattle.tb_model.specs.Reordering.{IsUnneeded};
ghost use Rattle.tb_undo.specs.Steps.{replaced_for};

/// Without a step that nothing needs, wherever it was, each other event leaves its task at the line
/// at which it left it, and what it replaced is the same.
#[tactic(auto, using(crate::proofs::MiddleLemmas::lines_kept, crate::proofs::MiddleLemmas::records_kept))]
pub fn taken_out()
    ensures lines { (later front : List Departure) (d : Departure) →
        IsUnneeded (step_of (events_of front) d.event) (events_of (later ++ d ∷ front)) →
        without_lines (step_of (events_of front) d.event) (later ++ d ∷ front) ≡ later ++ front }
    ensures records { (first : Cells) (root_line : ℕ) (later front : List Departure) (d e : Departure) →
        IsUnneeded (step_of (events_of front) d.event) (events_of (e ∷ (later ++ d ∷ front))) →
        replaced_for first root_line (later ++ d ∷ front) e.event
        ≡ replaced_for first root_line (later ++ front) e.event }
{}
