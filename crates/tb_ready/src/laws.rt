//! Laws of the table: what each change leaves, that it is taken back, and what the table holds of a
//! history, listed from its newest event.

ghost use Rattle.std.specs.Prelude.{◌≡◌, ◌∷◌, ◌&&◌, [], List, Bool, Some, None, true, false, not, option_map, unwrap_or};
ghost use Rattle.std.specs.List.{list_any};
ghost use Rattle.tb_model.specs.declared.action.Action.TheVariants.{Spawn};
ghost use Rattle.tb_model.specs.declared.event.Event.{Event};
ghost use Rattle.tb_model.specs.declared.spawn.Spawn.{Spawn as TheSpawn};
ghost use Rattle.tb_model.specs.Names.{Name, same_name};
ghost use Rattle.tb_model.specs.Facts.{History};
ghost use Rattle.tb_model.specs.State.{is_unended};
ghost use Rattle.tb_model.specs.Legal.{Cells, Legal};
ghost use Rattle.tb_model.specs.Alike.{Alike};
ghost use Rattle.tb_ready.specs.Tasks.{mark_of, with_name, without_name, with_mark, is_candidate};
ghost use Rattle.tb_ready.specs.Histories.{AreMarks, MarkedBy, MarkedBackBy};

/// A name that is added is unmarked, and no other name's mark changes. Removed again, it leaves the
/// table as it was.
#[tactic(auto, using(crate::proofs::ChangeLemmas::added, crate::proofs::ChangeLemmas::added_others, crate::proofs::ChangeLemmas::added_back))]
pub fn one_more_name()
    ensures unmarked { (tasks : List (Name × Bool)) (name : Name) → mark_of tasks name ≡ None →
        mark_of (with_name tasks name) name ≡ Some false }
    ensures others { (tasks : List (Name × Bool)) (name other : Name) → same_name other name ≡ false →
        mark_of (with_name tasks name) other ≡ mark_of tasks other }
    ensures back { (tasks : List (Name × Bool)) (name : Name) → mark_of tasks name ≡ None →
        without_name (with_name tasks name) name ≡ tasks }
{}

/// A name that is there gets the mark, and no other name's mark changes. Marked again as it was, it
/// leaves the table as it was.
#[tactic(auto, using(crate::proofs::ChangeLemmas::marked, crate::proofs::ChangeLemmas::marked_others, crate::proofs::ChangeLemmas::marked_back))]
pub fn one_mark()
    ensures marked { (tasks : List (Name × Bool)) (name : Name) (mark : Bool) →
        mark_of (with_mark tasks name mark) name ≡ option_map (λ _. mark) (mark_of tasks name) }
    ensures others { (tasks : List (Name × Bool)) (name other : Name) (mark : Bool) →
        same_name other name ≡ false →
        mark_of (with_mark tasks name mark) other ≡ mark_of tasks other }
    ensures back { (tasks : List (Name × Bool)) (name : Name) (was mark : Bool) →
        mark_of tasks name ≡ Some was →
        with_mark (with_mark tasks name mark) name was ≡ tasks }
{}

/// A name that is removed is gone, and no other name's mark changes.
#[tactic(auto, using(crate::proofs::ChangeLemmas::removed, crate::proofs::ChangeLemmas::removed_others))]
pub fn one_name_less()
    ensures gone { (tasks : List (Name × Bool)) (name : Name) →
        mark_of (without_name tasks name) name ≡ None }
    ensures others { (tasks : List (Name × Bool)) (name other : Name) → same_name other name ≡ false →
        mark_of (without_name tasks name) other ≡ mark_of tasks other }
{}

// The marks of a history.

/// Before the first step the root alone is marked.
#[tactic(auto, using(crate::proofs::HistoryLemmas::at_first))]
pub fn first()
    ensures { AreMarks [] (([], true) ∷ []) }
{}

/// The calls for an action lead from the marks of a history to those of the history with it.
#[tactic(auto, using(crate::proofs::HistoryLemmas::stepped))]
pub fn step()
    ensures { (cells : Cells) (H : History) (v : Event) (old new : List (Name × Bool)) →
        Legal cells (v ∷ H) → AreMarks H old → MarkedBy v.task v.action old new →
        AreMarks (v ∷ H) new }
{}

/// The calls that take an action back lead from the marks of the history with it to those without
/// it.
#[tactic(auto, using(crate::proofs::HistoryLemmas::taken_back))]
pub fn back()
    ensures { (cells : Cells) (H : History) (v : Event) (old new : List (Name × Bool)) →
        Legal cells (v ∷ H) → AreMarks (v ∷ H) old → MarkedBackBy v.task v.action old new →
        AreMarks H new }
{}

/// A task that comes to be isn't there yet.
pub fn conditions()
    ensures added { (cells : Cells) (H : History) (v : Event) (s : TheSpawn)
        (tasks : List (Name × Bool)) → Legal cells (v ∷ H) → v.action ≡ Spawn s →
        AreMarks H tasks → mark_of tasks s.child ≡ None }
{}

/// Histories that say the same have the same marks.
#[tactic(auto, using(crate::proofs::HistoryLemmas::kept_alike))]
pub fn alike()
    ensures { (G H : History) (tasks : List (Name × Bool)) → Alike G H →
        AreMarks G tasks → AreMarks H tasks }
{}

/// The marked names are those of the unended tasks, and so are those among which the least is
/// found.
#[tactic(auto, using(crate::proofs::HistoryLemmas::marked_unended, crate::proofs::HistoryLemmas::candidates))]
pub fn least()
    ensures marked { (H : History) (tasks : List (Name × Bool)) (t : Name) → AreMarks H tasks →
        unwrap_or (mark_of tasks t) false ≡ is_unended H t }
    ensures candidates { (H : History) (tasks : List (Name × Bool)) (skip : List Name)
        (name : Name) → AreMarks H tasks →
        is_candidate tasks skip name
        ≡ (is_unended H name && not (list_any (λ s. same_name s name) skip)) }
{}
