//! Laws of the relations of siblings: what the answers list, and that they are the relations of a
//! task's children, read off its own actions.

ghost use Rattle.std.specs.Prelude.{◌≡◌, ◌≤◌, ◌+◌, ◌-◌, ◌++◌, [], ◌∷◌, ◌↔◌, ℕ, List, Bool, IsTrue, Contains, length, take};
ghost use Rattle.tb_model.specs.declared.action.Action.{Action};
ghost use Rattle.tb_model.specs.declared.item.Item.{Item};
ghost use Rattle.tb_model.specs.Legal.{spawn_count};
ghost use Rattle.tb_model.specs.Siblings.{nth_items, child_before, child_apart, child_covered};
ghost use Rattle.tb_depend.specs.Numbers.{numbers_where, AreRising};
ghost use Rattle.tb_depend.specs.Relations.{items_at, depends, excludes, is_covered, preds_of, apart_of, covered_by, spawned_items};

/// The ordinals from 1 that pass a test are listed once each, rising, and no other.
#[tactic(auto, using(crate::proofs::NumbersLemmas::rising_where))]
pub fn numbers()
    ensures listed { (test : ℕ → Bool) (k m : ℕ) →
        Contains (numbers_where test k) m ↔ ((1 ≤ m) × (m ≤ k) × IsTrue (test m)) }
    ensures rising { (test : ℕ → Bool) (k : ℕ) → AreRising 0 (numbers_where test k) }
{}

/// A child that is added changes no other, and taken off it leaves the others.
#[tactic(auto, using(crate::proofs::RelationsLemmas::items_front, crate::proofs::RelationsLemmas::items_last, crate::proofs::RelationsLemmas::take_added))]
pub fn one_more_child()
    ensures others { (siblings : List (List Item)) (items : List Item) (n : ℕ) →
        n ≤ length siblings →
        items_at (siblings ++ items ∷ []) n ≡ items_at siblings n }
    ensures last { (siblings : List (List Item)) (items : List Item) →
        items_at (siblings ++ items ∷ []) (length siblings + 1) ≡ items }
    ensures back { (siblings : List (List Item)) (items : List Item) →
        take (length (siblings ++ items ∷ []) - 1) (siblings ++ items ∷ []) ≡ siblings }
{}

/// Where the children are those that a task's own actions generated, they relate to each other as
/// these actions say.
#[tactic(auto, using(crate::proofs::RelationsLemmas::length_spawned, crate::proofs::RelationsLemmas::items_spawned, crate::proofs::RelationsLemmas::depends_spawned, crate::proofs::RelationsLemmas::excludes_spawned, crate::proofs::RelationsLemmas::covered_spawned))]
pub fn children_of_task()
    ensures count { (acts : List Action) → length (spawned_items acts) ≡ spawn_count acts }
    ensures items { (acts : List Action) (n : ℕ) →
        items_at (spawned_items acts) n ≡ nth_items n acts }
    ensures before { (acts : List Action) (m n : ℕ) →
        depends (spawned_items acts) n m ≡ child_before acts m n }
    ensures apart { (acts : List Action) (m n : ℕ) →
        excludes (spawned_items acts) n m ≡ child_apart acts m n }
    ensures covers { (acts : List Action) (items : List Item) (n : ℕ) →
        is_covered (spawned_items acts) items n ≡ child_covered acts items n }
{}

/// The lists of children that a task's own actions generated have exactly the ordinals that these
/// actions relate.
#[tactic(auto, using(crate::proofs::RelationsLemmas::preds_spawned, crate::proofs::RelationsLemmas::apart_spawned))]
pub fn lists_of_task()
    ensures preds { (acts : List Action) (m n : ℕ) →
        Contains (preds_of (spawned_items acts) n) m ↔ IsTrue (child_before acts m n) }
    ensures apart { (acts : List Action) (m n : ℕ) →
        Contains (apart_of (spawned_items acts) n) m ↔ IsTrue (child_apart acts m n) }
    ensures covered { (acts : List Action) (items : List Item) (m : ℕ) →
        Contains (covered_by (spawned_items acts) items) m
        ↔ ((1 ≤ m) × (m ≤ spawn_count acts) × IsTrue (child_covered acts items m)) }
{}
