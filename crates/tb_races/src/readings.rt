//! What the definitions say in other words. Each is a sentence over the definitions alone, and a
//! function's contract. A history is listed from its newest event.

ghost use Rattle.std.specs.Prelude.{◌≡◌, ◌↔◌, ◌∷◌, ◌++◌, is_some, IsTrue};
ghost use Rattle.tb_model.specs.declared.event.Event.{Event};
ghost use Rattle.tb_model.specs.Facts.{History};
ghost use Rattle.tb_model.specs.Needs.{needs};
ghost use Rattle.tb_races.specs.Immediate.{IsImmediate, cause};
ghost use Rattle.tb_races.specs.Kinds.{need_kind};

/// A direct need is what has a kind.
#[tactic(auto, using(crate::proofs::KindLemmas::kind_some))]
pub fn kinds_are_needs()
    ensures { (H : History) (v u : Event) → is_some (need_kind H v u) ≡ needs H v u }
{}

/// An immediate need is listed exactly where it is one by the words: the event needs it, and no
/// event that it needs does.
#[tactic(auto, using(crate::proofs::ImmediateLemmas::by_test))]
pub fn immediate_by_test()
    ensures { (u : Event) (front : History) (v : Event) (later : History) →
        IsTrue (is_some (cause (later ++ u ∷ front) v front u))
        ↔ IsImmediate (v ∷ (later ++ u ∷ front)) (u ∷ front) }
{}
