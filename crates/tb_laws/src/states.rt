//! What the state is, read off the actions of one task, and what leaves the same.
//! A history is listed from its newest event.

ghost use Rattle.std.specs.Prelude.{◌≡◌, ◌≤◌, ◌<◌, ◌∷◌, ◌↔◌, ◌⊎◌, ℕ, ℤ, List, IsTrue, map, slice_index_or};
ghost use Rattle.std.specs.List.{list_any};
ghost use Rattle.tb_model.specs.declared.action.Action.{Action};
ghost use Rattle.tb_model.specs.declared.item.Item.{Item};
ghost use Rattle.tb_model.specs.declared.kind.Kind.{Kind};
ghost use Rattle.tb_model.specs.declared.kind.Kind.TheVariants.{In, Mutexinoutset, Inoutset};
ghost use Rattle.tb_model.specs.Names.{Name};
ghost use Rattle.tb_model.specs.Items.{Free, Before, Apart, relation, is_before, is_apart, some_meet, Relates};
ghost use Rattle.tb_model.specs.Facts.{History, own, starts, ends, items_of, before, apart, covers, groups, IsSpawned, HasStarted, HasEnded};
ghost use Rattle.tb_model.specs.Legal.{Cells, Legal, spawn_count};
ghost use Rattle.tb_model.specs.Siblings.{nth_items, child_before, child_apart, child_covered, children_at, is_later};
ghost use Rattle.tb_model.specs.State.{spawn_of, items_in, status_of, has_begun, is_over, open_groups, children_since, is_member_of};
ghost use Rattle.tb_model.specs.Records.{register};
ghost use Rattle.tb_model.specs.Alike.{Alike};
ghost use Rattle.tb_model.specs.SameState.{SameState, GoOnAlike};
ghost use Rattle.tb_model.specs.Program.{Program, config, called, situation, LegalFor};
ghost use Rattle.tb_model.specs.Lines.{Departure, events_of, line_of, LinesFit};

/// Two items that name one storage location are free of each other where both are `in` or both
/// `inoutset`; they exclude each other where both are `mutexinoutset`; else the later one's task
/// depends on the earlier one's. The tests decide whether some pair of items relates so.
pub fn table()
    ensures free { (new old : Kind) → (relation new old ≡ Free)
        ↔ (((new ≡ In) × (old ≡ In)) ⊎ ((new ≡ Inoutset) × (old ≡ Inoutset))) }
    ensures exclusive { (new old : Kind) →
        (relation new old ≡ Apart) ↔ ((new ≡ Mutexinoutset) × (old ≡ Mutexinoutset)) }
    ensures before { (new old : List Item) →
        IsTrue (some_meet is_before new old) ↔ Relates Before new old }
    ensures apart { (new old : List Item) →
        IsTrue (some_meet is_apart new old) ↔ Relates Apart new old }
{}

/// Exclusion holds both ways.
#[tactic(auto, using(tb_model::proofs::NeighboursLemmas::apart_same))]
pub fn apart_both_ways()
    ensures { (H : History) (u t : Name) → apart H u t ≡ apart H t u }
{}

/// Two tasks that exclude each other are never both under way.
#[tactic(auto, using(tb_model::proofs::StateLemmas::exclusion))]
pub fn exclusion()
    ensures { (cells : Cells) (H : History) (t u : Name) → Legal cells H → IsTrue (apart H u t) →
        HasStarted H t → HasStarted H u → HasEnded H t ⊎ HasEnded H u }
{}

/// The children of a task are numbered from 1, in the order of their spawns.
#[tactic(auto, using(tb_model::proofs::StateLemmas::children_numbered))]
pub fn children_numbered()
    ensures { (cells : Cells) (H : History) (t : Name) (n : ℕ) → Legal cells H →
        IsSpawned H (n ∷ t) ↔ ((1 ≤ n) × (n ≤ spawn_count (own t H))) }
{}

/// A task is generated once, so its items are those that its spawn names.
#[tactic(auto, using(tb_model::proofs::StateLemmas::items_of_spawn))]
pub fn items_of_spawn()
    ensures { (cells : Cells) (H : History) (t : Name) →
        Legal cells H → items_of t H ≡ items_in (spawn_of t H) }
{}

/// How siblings relate to each other, and which of them a `taskwait` waits for, is settled by the
/// items that their parent gave them.
pub fn siblings_by_parent()
    ensures items { (cells : Cells) (H : History) (t : Name) (n : ℕ) → Legal cells H →
        items_of (n ∷ t) H ≡ nth_items n (own t H) }
    ensures before { (cells : Cells) (H : History) (t : Name) (m n : ℕ) → Legal cells H →
        before H (m ∷ t) (n ∷ t) ≡ child_before (own t H) m n }
    ensures apart { (cells : Cells) (H : History) (t : Name) (m n : ℕ) → Legal cells H →
        apart H (m ∷ t) (n ∷ t) ≡ child_apart (own t H) m n }
    ensures covers { (cells : Cells) (H : History) (t : Name) (items : List Item) (n : ℕ) →
        Legal cells H → covers H t items (n ∷ t) ≡ child_covered (own t H) items n }
{}

/// An open group has the children that were generated since its step, whether one goes by nesting
/// or by that step.
#[tactic(auto, using(tb_model::proofs::GroupsLemmas::groups_since))]
pub fn open_group()
    ensures { (acts : List Action) →
        groups acts ≡ map (λ k. children_since k acts) (open_groups acts) }
{}

/// The members of an open group are known by one ordinal, that of the owner's last child when the
/// group was opened.
#[tactic(auto, using(tb_model::proofs::MembersLemmas::members_by_number))]
pub fn members_by_number()
    ensures { (cells : Cells) (H : History) (t : Name) (k : ℕ) (m : Name) →
        Legal cells H → IsSpawned H m →
        is_member_of k (own t H) m ≡ is_later t (children_at k (own t H)) m }
{}

/// A task's newest action says whether it has started and whether it has ended.
#[tactic(auto, using(tb_model::proofs::StateLemmas::begun_started, tb_model::proofs::StateLemmas::over_ended))]
pub fn status()
    ensures started { (cells : Cells) (H : History) (t : Name) → Legal cells H →
        list_any (starts t) H ≡ has_begun (status_of (own t H)) }
    ensures ended { (cells : Cells) (H : History) (t : Name) → Legal cells H →
        list_any (ends t) H ≡ is_over (status_of (own t H)) }
{}

/// Without the program: a register has the value of the last `let` or `load` to it, else the
/// argument, else 0.
#[tactic(auto, using(tb_model::proofs::LinesLemmas::registers))]
pub fn registers()
    ensures { (P : Program) (line : ℕ) (args : List ℤ) (acts : List Action) (r : ℕ) → r < 16 →
        slice_index_or (config P line args acts).regs r (ℤ.pos 0) ≡ register r args acts }
{}

/// Without the program: a history that retains its lines says the line at which each task is.
#[tactic(auto, using(tb_model::proofs::LinesLemmas::line_kept))]
pub fn line_kept()
    ensures { (P : Program) (D : List Departure) (t : Name) →
        LinesFit P D → LegalFor P (events_of D) →
        line_of (called P t (events_of D)).line t D ≡ (situation P t (events_of D)).line }
{}

/// Histories that say the same of every task and cell leave the same state.
#[tactic(auto, using(crate::proofs::SameStateLemmas::same_state))]
pub fn same_state()
    ensures { (cells : Cells) (G H : History) →
        Legal cells G → Legal cells H → Alike G H → SameState G H }
{}

/// Histories that are alike go on alike: by the same events, with the same needs and the same
/// records.
#[tactic(auto, using(crate::proofs::SameStateLemmas::go_on_alike))]
pub fn go_on_alike()
    ensures { (G H : History) → Alike G H → GoOnAlike G H }
{}
