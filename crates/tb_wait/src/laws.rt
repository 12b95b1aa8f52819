//! Laws of the table's definitions: what it holds of a history, listed from its newest event.

ghost use Rattle.std.specs.Prelude.{◌≡◌, ◌∷◌, ◌↔◌, [], ℕ, Some, None, IsTrue, length, if◌then◌else◌};
ghost use Rattle.std.specs.List.{list_any};
ghost use Rattle.tb_model.specs.declared.action.Action.TheVariants.{Spawn, Open, Close};
ghost use Rattle.tb_model.specs.declared.event.Event.{Event};
ghost use Rattle.tb_model.specs.declared.spawn.Spawn.{Spawn as TheSpawn};
ghost use Rattle.tb_model.specs.Names.{Name, same_name};
ghost use Rattle.tb_model.specs.Facts.{History, own, ends, groups};
ghost use Rattle.tb_model.specs.State.{is_unended, is_unended_child, is_unended_member};
ghost use Rattle.tb_model.specs.Legal.{Cells, Legal, spawn_count};
ghost use Rattle.tb_model.specs.Alike.{Alike};
ghost use Rattle.tb_wait.specs.Kin.{Kin, Tasks, kin, fresh, IsNext, IsLast, HasOpenGroup, IsUnended, IsUnendedChild, IsUnendedMember};
ghost use Rattle.tb_wait.specs.Histories.{AreKin, ChangesBy, ChangesBackBy};

/// The table that is opened is that of the empty history.
#[tactic(auto, using(crate::proofs::HistoryLemmas::at_first))]
pub fn first()
    ensures { (tasks : Tasks) →
        ((t : Name) → kin tasks t ≡ (if same_name [] t then Some fresh else None)) →
        AreKin [] tasks }
{}

/// The calls for an action lead from the table of a history to that of the history with it.
#[tactic(auto, using(crate::proofs::HistoryLemmas::stepped))]
pub fn step()
    ensures { (cells : Cells) (H : History) (v : Event) (old new : Tasks) → Legal cells (v ∷ H) →
        AreKin H old → ChangesBy v.task v.action old new → AreKin (v ∷ H) new }
{}

/// The calls that take an action back lead from the table of the history with it to that without
/// it.
#[tactic(auto, using(crate::proofs::HistoryLemmas::taken_back))]
pub fn back()
    ensures { (cells : Cells) (H : History) (v : Event) (old new : Tasks) → Legal cells (v ∷ H) →
        AreKin (v ∷ H) old → ChangesBackBy v.task v.action old new → AreKin H new }
{}

/// Histories that say the same have the same table.
#[tactic(auto, using(crate::proofs::HistoryLemmas::kept_alike))]
pub fn alike()
    ensures { (G H : History) (tasks : Tasks) → Alike G H → AreKin G tasks → AreKin H tasks }
{}

/// What the calls require of the table holds in a legal history.
pub fn conditions()
    ensures spawned { (cells : Cells) (H : History) (v : Event) (tasks : Tasks) →
        Legal cells (v ∷ H) →
        (s : TheSpawn) →
        v.action ≡ Spawn s →
        AreKin H tasks → IsNext tasks v.task s.child }
    ensures unspawned { (cells : Cells) (H : History) (v : Event) (tasks : Tasks) →
        Legal cells (v ∷ H) →
        (s : TheSpawn) →
        v.action ≡ Spawn s →
        AreKin (v ∷ H) tasks → IsLast tasks v.task s.child }
    ensures closed { (cells : Cells) (H : History) (v : Event) (tasks : Tasks) →
        Legal cells (v ∷ H) → v.action ≡ Close → AreKin H tasks → HasOpenGroup tasks v.task }
    ensures unopened { (cells : Cells) (H : History) (v : Event) (tasks : Tasks) →
        Legal cells (v ∷ H) → v.action ≡ Open → AreKin (v ∷ H) tasks → HasOpenGroup tasks v.task }
{}

/// The tasks that aren't over by the table are those of the history.
pub fn unended()
    ensures task { (H : History) (tasks : Tasks) (t : Name) → AreKin H tasks →
        IsUnended tasks t ↔ IsTrue (is_unended H t) }
    ensures child { (H : History) (tasks : Tasks) (t u : Name) → AreKin H tasks →
        IsUnendedChild tasks t u ↔ IsTrue (is_unended_child H t u) }
    ensures member { (cells : Cells) (H : History) (tasks : Tasks) (t m : Name) → Legal cells H →
        AreKin H tasks → IsUnendedMember tasks t m ↔ IsTrue (is_unended_member H t m) }
{}

/// What the table counts of a task, and whether the task is over, are as the history says.
#[tactic(auto, using(crate::proofs::UnendedLemmas::count_children, crate::proofs::UnendedLemmas::count_groups, crate::proofs::UnendedLemmas::over_ended))]
pub fn counts()
    ensures children { (H : History) (tasks : Tasks) (t : Name) (k : Kin) → AreKin H tasks →
        kin tasks t ≡ Some k → k.children ≡ spawn_count (own t H) }
    ensures groups { (H : History) (tasks : Tasks) (t : Name) (k : Kin) → AreKin H tasks →
        kin tasks t ≡ Some k → length k.groups ≡ length (groups (own t H)) }
    ensures over { (H : History) (tasks : Tasks) (t : Name) (k : Kin) → AreKin H tasks →
        kin tasks t ≡ Some k → k.over ≡ list_any (ends t) H }
{}
