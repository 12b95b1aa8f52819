//! Causal equivalence (the idea is Danos and Krivine's): orders of the same steps.
//! A history is listed from its newest event.

ghost use Rattle.std.specs.Prelude.{◌≡◌, ◌∷◌, ◌++◌, ◌↔◌, IsTrue, IsFalse};
ghost use Rattle.tb_model.specs.declared.event.Event.{Event};
ghost use Rattle.tb_model.specs.declared.step_id.StepId.{StepId};
ghost use Rattle.tb_model.specs.Facts.{History};
ghost use Rattle.tb_model.specs.Legal.{Cells, Legal};
ghost use Rattle.tb_model.specs.Needs.{needs, without};
ghost use Rattle.tb_model.specs.Alike.{Alike};
ghost use Rattle.tb_model.specs.Program.{Program, IsNext, LegalFor};
ghost use Rattle.tb_model.specs.Equivalent.{Equivalent, comes_first, needs_in};
ghost use Rattle.tb_model.specs.Ordered.{ordered};
ghost use Rattle.tb_model.specs.Reordering.{IsReordering, IsReorderingFor};

/// Two neighbours of which the later doesn't directly need the earlier may change places.
pub fn neighbours()
    ensures { (cells : Cells) (later front : History) (e f : Event) →
        Legal cells (later ++ f ∷ e ∷ front) → IsFalse (needs (e ∷ front) f e) →
        IsReordering cells (later ++ f ∷ e ∷ front) (later ++ e ∷ f ∷ front) }
{}

/// In a program's run, two neighbours of which the later doesn't directly need the earlier may
/// change places.
pub fn neighbours_for()
    ensures { (P : Program) (later front : History) (e f : Event) →
        LegalFor P (later ++ f ∷ e ∷ front) → IsFalse (needs (e ∷ front) f e) →
        IsReorderingFor P (later ++ f ∷ e ∷ front) (later ++ e ∷ f ∷ front) }
{}

/// Equivalent legal histories leave the same state, and have the same direct needs.
pub fn equivalent()
    ensures state { (cells : Cells) (G H : History) →
        Legal cells G → Legal cells H → Equivalent G H → Alike G H }
    ensures needs { (cells : Cells) (G H : History) (i j : StepId) →
        Legal cells G → Legal cells H → Equivalent G H → needs_in i j G ≡ needs_in i j H }
{}

/// Equivalent legal histories have the same next events.
pub fn equivalent_next()
    ensures { (P : Program) (G H : History) (v : Event) →
        Legal P.cells G → Legal P.cells H → Equivalent G H → IsNext P G v ↔ IsNext P H v }
{}

/// Without one step, equivalent legal histories are equivalent.
pub fn equivalent_without()
    ensures { (cells : Cells) (e : StepId) (G H : History) →
        Legal cells G → Legal cells H → Equivalent G H → Equivalent (without e G) (without e H) }
{}

/// One pass finds whether the direct needs of one history come in their order in another.
pub fn ordered_by_pass()
    ensures { (G H : History) → IsTrue (ordered H G)
        ↔ ((i j : StepId) → IsTrue (needs_in i j G) → IsTrue (comes_first j i H)) }
{}
