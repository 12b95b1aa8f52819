//! Laws of the exclusive sets: what they hold of a history. A history is listed from its newest
//! event.

ghost use Rattle.std.specs.Prelude.{◌≡◌, ◌∷◌, ◌↔◌, ℕ, List, Some, None, IsTrue, IsFalse};
ghost use Rattle.std.specs.List.{list_any};
ghost use Rattle.tb_model.specs.declared.event.Event.{Event};
ghost use Rattle.tb_model.specs.declared.item.Item.{Item};
ghost use Rattle.tb_model.specs.declared.place.Place.{Place};
ghost use Rattle.tb_model.specs.Names.{Name};
ghost use Rattle.tb_model.specs.Items.{is_apart, same_place, some_meet};
ghost use Rattle.tb_model.specs.Facts.{History, HasStarted, HasEnded, starts, ends, items_of, apart};
ghost use Rattle.tb_model.specs.Legal.{Cells, Legal};
ghost use Rattle.tb_model.specs.Alike.{Alike};
ghost use Rattle.tb_excl.specs.Holders.{Holders, holder, takes, excludes, HasRoomFor, KeepsRoom, IsSet, ExcludesTask};
ghost use Rattle.tb_excl.specs.Histories.{is_held, AreHolders};

/// Items exclude two tasks from each other where those of one take a location that those of the
/// other meet.
#[tactic(auto, using(crate::proofs::ApartLemmas::apart_by_place))]
pub fn apart_by_place()
    ensures { (new old : List Item) → IsTrue (some_meet is_apart new old)
        ↔ ((place : Place) × IsTrue (takes old place) × IsTrue (excludes new place)) }
{}

/// In a legal history a location has at most one holder among the children of a task, and a cell
/// and all memory have at most one together.
#[tactic(auto, using(crate::proofs::ApartLemmas::one_holder, crate::proofs::ApartLemmas::one_of_both))]
pub fn one_holder()
    ensures place { (cells : Cells) (H : History) (p : Name) (place : Place) (m n : ℕ) →
        Legal cells H → IsTrue (is_held H p place m) → IsTrue (is_held H p place n) → m ≡ n }
    ensures meeting { (cells : Cells) (H : History) (p : Name) (q r : Place) (m n : ℕ) →
        Legal cells H → IsTrue (same_place q r) →
        IsTrue (is_held H p q m) → IsTrue (is_held H p r n) → m ≡ n }
{}

/// A child that hasn't started is excluded by those that are apart from it and under way. These
/// exclude it at any time; once it has started, it can find itself too.
#[tactic(auto, using(crate::proofs::ApartLemmas::under_way_excludes))]
pub fn busy()
    ensures pending { (H : History) (p : Name) (n : ℕ) (h : Holders) (u : Name) →
        AreHolders H p h → IsFalse (list_any (starts (n ∷ p)) H) →
        ExcludesTask h (items_of (n ∷ p) H) u
        ↔ (IsTrue (apart H u (n ∷ p)) × HasStarted H u × (HasEnded H u → ⊥)) }
    ensures always { (H : History) (p : Name) (n : ℕ) (h : Holders) (u : Name) →
        AreHolders H p h → IsTrue (apart H u (n ∷ p)) → HasStarted H u → (HasEnded H u → ⊥) →
        ExcludesTask h (items_of (n ∷ p) H) u }
{}

/// As long as no child has started, nothing is held.
#[tactic(auto, using(crate::proofs::HistoriesLemmas::first))]
pub fn first()
    ensures { (H : History) (p : Name) (h : Holders) →
        h.parent ≡ p → ((place : Place) → holder h place ≡ None) →
        ((n : ℕ) → IsFalse (list_any (starts (n ∷ p)) H)) → AreHolders H p h }
{}

/// Where a child starts, it holds what its items take.
pub fn start()
    ensures { (cells : Cells) (H : History) (v : Event) (p : Name) (n : ℕ) (old new : Holders) →
        Legal cells (v ∷ H) → IsTrue (starts (n ∷ p) v) → AreHolders H p old →
        IsSet old (items_of (n ∷ p) H) (Some n) new → HasRoomFor new (items_of (n ∷ p) H) →
        KeepsRoom old new → AreHolders (v ∷ H) p new }
{}

/// Where a start is taken back, the locations that the child's items take are free.
pub fn start_back()
    ensures { (cells : Cells) (H : History) (v : Event) (p : Name) (n : ℕ) (old new : Holders) →
        Legal cells (v ∷ H) → IsTrue (starts (n ∷ p) v) → AreHolders (v ∷ H) p old →
        IsSet old (items_of (n ∷ p) H) None new → KeepsRoom old new → AreHolders H p new }
{}

/// Where a child ends or faults, what its items take is free.
pub fn end()
    ensures { (cells : Cells) (H : History) (v : Event) (p : Name) (n : ℕ) (old new : Holders) →
        Legal cells (v ∷ H) → IsTrue (ends (n ∷ p) v) → AreHolders H p old →
        IsSet old (items_of (n ∷ p) H) None new → KeepsRoom old new → AreHolders (v ∷ H) p new }
{}

/// Where an end is taken back, the child holds again what its items take, and there is capacity for
/// it.
#[tactic(auto, using(crate::proofs::HistoriesLemmas::end_room))]
pub fn end_back()
    ensures room { (cells : Cells) (H : History) (v : Event) (p : Name) (n : ℕ) (old : Holders) →
        Legal cells (v ∷ H) → IsTrue (ends (n ∷ p) v) → AreHolders (v ∷ H) p old →
        HasRoomFor old (items_of (n ∷ p) H) }
    ensures held { (cells : Cells) (H : History) (v : Event) (p : Name) (n : ℕ)
        (old new : Holders) →
        Legal cells (v ∷ H) → IsTrue (ends (n ∷ p) v) → AreHolders (v ∷ H) p old →
        IsSet old (items_of (n ∷ p) H) (Some n) new → KeepsRoom old new → AreHolders H p new }
{}

/// No other event changes what is held: a spawn gives items only to a task that hasn't started.
pub fn other()
    ensures { (cells : Cells) (H : History) (v : Event) (p : Name) (h : Holders) →
        Legal cells (v ∷ H) → ((n : ℕ) → IsFalse (starts (n ∷ p) v)) →
        ((n : ℕ) → IsFalse (ends (n ∷ p) v)) → AreHolders H p h ↔ AreHolders (v ∷ H) p h }
{}

/// Histories that say the same have the same holders.
#[tactic(auto, using(crate::proofs::HistoriesLemmas::alike))]
pub fn alike()
    ensures { (G H : History) (p : Name) (h : Holders) →
        Alike G H → AreHolders G p h → AreHolders H p h }
{}
