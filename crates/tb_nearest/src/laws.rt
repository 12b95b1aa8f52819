//! Laws of the nearest needs, over the definitions of `tb_model` alone. Each is a function's contract, since what no
//! contract says stays unproved. A history is listed from its newest event, and an event is named by itself with all
//! in front of it.

ghost use Rattle.std.specs.Prelude.{◌∷◌, ◌++◌, ◌↔◌, IsTrue};
ghost use Rattle.tb_model.specs.declared.event.Event.{Event};
ghost use Rattle.tb_model.specs.Facts.{History};
ghost use Rattle.tb_model.specs.Legal.{Cells, Legal};
ghost use Rattle.tb_model.specs.Needs.{needs};
ghost use Rattle.tb_model.specs.Closure.{Needs};
ghost use Rattle.tb_nearest.specs.Nearest.{Nearest, Chain};

/// What needs an event nearest needs it directly.
#[tactic(auto, using(crate::proofs::DirectLemmas::nearest_needs))]
pub fn nearest_are_direct()
    ensures { (v u : Event) (between front : History) → Nearest v u between front →
        IsTrue (needs (between ++ u ∷ front) v u) }
{}

/// In a legal history an event needs another exactly where nearest needs lead from the one to the other. So a set of
/// events that has, with each of its own, those that need it nearest has all that need one of them; and the other
/// way round.
#[tactic(auto, using(crate::proofs::ChainLemmas::chained))]
pub fn needs_are_chains()
    ensures { (cells : Cells) (F G : History) → Legal cells F → Needs F G ↔ Chain F G }
{}
