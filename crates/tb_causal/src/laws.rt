//! The laws of steps and undos. Each is a sentence over the definitions alone, and a function's
//! contract, since what no contract says stays unproved. A history is listed from its newest event.
//!
//! A state is a run of a program, as far as equivalence distinguishes runs. A transition is a label
//! that is enabled in a state: a step, which comes at the end of the run, or an undo, which takes a
//! step out wherever it is. Transitions are coinitial where they begin in one state, and paths are
//! cofinal where they end in equivalent ones.

ghost use Rattle.std.specs.Prelude.{◌≡◌, ◌≢◌, ◌↔◌, ◌≤◌, ℕ, suc, List, [], length, Some, None, IsTrue, IsFalse};
ghost use Rattle.tb_model.specs.declared.action.Action.{Action};
ghost use Rattle.tb_model.specs.declared.entry.Entry.{Entry};
ghost use Rattle.tb_model.specs.declared.step_id.StepId.{StepId};
ghost use Rattle.tb_model.specs.Journal.{hist, Sound};
ghost use Rattle.tb_model.specs.Facts.{History, own};
ghost use Rattle.tb_model.specs.Needs.{without};
ghost use Rattle.tb_model.specs.Needers.{first_needer};
ghost use Rattle.tb_model.specs.Program.{Program, LegalFor};
ghost use Rattle.tb_model.specs.Equivalent.{Equivalent, needs_in, stands};
ghost use Rattle.tb_causal.specs.Systems.{Square, IsPath, end_of, AreBackward, AreForward, Parabola, CausallyEquivalent, EndlessBack, PathBack};
ghost use Rattle.tb_causal.specs.Runs.{Label, Step, Undo, Enabled, Independent, target, inverse, is_undo, kth, runs, steps_of, undos, path_of};

// States and transitions.

/// A transition leads from a run of the program to a run of the program.
pub fn transitions_keep_runs()
    ensures { (P : Program) (H : History) (l : Label) →
        LegalFor P H → Enabled P H l → LegalFor P (target H l) }
{}

/// Equivalent runs are one state: they have the same transitions, which lead to equivalent runs,
/// and the same of these are independent.
pub fn equivalent_runs()
    ensures enabled { (P : Program) (G H : History) (l : Label) → LegalFor P G → LegalFor P H →
        Equivalent G H → Enabled P G l → Enabled P H l }
    ensures target { (P : Program) (G H : History) (l : Label) → LegalFor P G → LegalFor P H →
        Equivalent G H → Enabled P G l → Equivalent (target G l) (target H l) }
    ensures independent { (P : Program) (G H : History) (l m : Label) → LegalFor P G →
        LegalFor P H → Equivalent G H → Independent G l m → Independent H l m }
{}

// What Danos and Krivine, and Lanese, Phillips and Ulidowski ask of a reversible calculus.

/// The loop lemma (Danos and Krivine): each transition has its inverse, which leads back. A step
/// can be undone, and an undo be redone, and the run is equivalent to what it was.
pub fn loop_lemma()
    ensures enabled { (P : Program) (H : History) (l : Label) →
        LegalFor P H → Enabled P H l → Enabled P (target H l) (inverse l) }
    ensures back { (P : Program) (H : History) (l : Label) →
        LegalFor P H → Enabled P H l → Equivalent (target (target H l) (inverse l)) H }
    ensures twice { (l : Label) → inverse (inverse l) ≡ l }
{}

/// The square property (Lanese, Phillips and Ulidowski; Danos and Krivine's square lemma): two
/// independent transitions from one state can each be taken after the other, and the two ways end
/// in equivalent runs.
pub fn square_property()
    ensures { (P : Program) (H : History) (l m : Label) → LegalFor P H →
        Enabled P H l → Enabled P H m → Independent H l m → Square (runs P) H l m }
{}

/// Backward transitions are independent (Lanese, Phillips and Ulidowski): two different undos from
/// one state are.
pub fn backward_transitions_independent()
    ensures { (P : Program) (H : History) (l m : Label) → Enabled P H l → Enabled P H m →
        IsTrue (is_undo l) → IsTrue (is_undo m) → l ≢ m → Independent H l m }
{}

/// Independence is symmetric and irreflexive, and coinitial independence propagates (Lanese,
/// Phillips and Ulidowski): after one of two independent transitions, the way back and the other
/// one are independent.
pub fn independence_propagates()
    ensures symmetric { (H : History) (l m : Label) → Independent H l m → Independent H m l }
    ensures irreflexive { (H : History) (l : Label) → Independent H l l → ⊥ }
    ensures propagates { (P : Program) (H : History) (l m : Label) → LegalFor P H →
        Enabled P H l → Enabled P H m → Independent H l m →
        Independent (target H l) (inverse l) m }
{}

/// Two different transitions from one state are independent exactly where they commute, so no
/// wider independence has the square property.
pub fn independence_is_commuting()
    ensures { (P : Program) (H : History) (l m : Label) → LegalFor P H →
        Enabled P H l → Enabled P H m → l ≢ m → Independent H l m ↔ Square (runs P) H l m }
{}

/// Well-foundedness (Lanese, Phillips and Ulidowski): each undo makes the run shorter by one, so no
/// path of undos is infinite.
pub fn well_foundedness()
    ensures shorter { (P : Program) (H : History) (l : Label) →
        Enabled P H l → IsTrue (is_undo l) → suc (length (target H l)) ≡ length H }
    ensures no_endless_path { (P : Program) (H : ℕ → History) (l : ℕ → Label) →
        EndlessBack (runs P) H l → ⊥ }
{}

/// Causal safety: a step can be undone only where all that need it have been undone, whether they
/// need it directly or by way of others.
pub fn causal_safety()
    ensures direct { (P : Program) (H : History) (i j : StepId) (a : Action) →
        Enabled P H (Undo i a) → IsFalse (needs_in j i H) }
    ensures closure { (P : Program) (H : History) (i : StepId) (a : Action) →
        Enabled P H (Undo i a) → first_needer i H ≡ None }
{}

/// Causal liveness: a step that is there can be undone once no step directly needs it any more.
pub fn causal_liveness()
    ensures { (P : Program) (H : History) (i : StepId) (a : Action) →
        kth i.k (own i.task H) ≡ Some a → ((j : StepId) → IsFalse (needs_in j i H)) →
        Enabled P H (Undo i a) }
{}

// What follows for paths.

/// The parabolic lemma (Danos and Krivine): each path is causally equivalent to one that first
/// undoes, and then only executes steps, and that is no longer.
pub fn parabolic_lemma()
    ensures { (P : Program) (H : History) (r : List Label) →
        LegalFor P H → IsPath (runs P) H r → Parabola (runs P) H r }
{}

/// The shortening lemma (Danos and Krivine): a path of steps is no longer than any other that is
/// coinitial and cofinal with it.
pub fn shortening_lemma()
    ensures { (P : Program) (H : History) (r s : List Label) → LegalFor P H →
        IsPath (runs P) H r → IsPath (runs P) H s → AreForward (runs P) s →
        Equivalent (end_of (runs P) H r) (end_of (runs P) H s) → length s ≤ length r }
{}

/// Causal consistency (Danos and Krivine): two coinitial paths are causally equivalent exactly
/// where they are cofinal. What is causally equivalent to a path is one.
pub fn causal_consistency()
    ensures cofinal { (P : Program) (H : History) (r s : List Label) → LegalFor P H →
        IsPath (runs P) H r → IsPath (runs P) H s →
        CausallyEquivalent (runs P) H r s
        ↔ Equivalent (end_of (runs P) H r) (end_of (runs P) H s) }
    ensures paths { (P : Program) (H : History) (r s : List Label) → LegalFor P H →
        IsPath (runs P) H r → CausallyEquivalent (runs P) H r s → IsPath (runs P) H s }
{}

/// Equivalence of runs, whose form is this project's own, is causal equivalence: two runs are
/// equivalent exactly where the paths of steps that lead to them are causally equivalent.
pub fn equivalence_is_causal()
    ensures path { (P : Program) (H : History) →
        LegalFor P H → IsPath (runs P) [] (steps_of H) }
    ensures end { (P : Program) (H : History) → end_of (runs P) [] (steps_of H) ≡ H }
    ensures causal { (P : Program) (G H : History) → LegalFor P G → LegalFor P H →
        Equivalent G H ↔ CausallyEquivalent (runs P) [] (steps_of G) (steps_of H) }
{}

// Rollback, this project's own: a step and all that need it go in one move.

/// A rollback is a path of undos, one for the step and for each that needs it, and the least way
/// back without the step: any run without it that undos reach, they reach from what the rollback
/// leaves.
pub fn rollback_is_least()
    ensures path { (P : Program) (H : History) (e : StepId) → IsPath (runs P) H (undos e H) }
    ensures backward { (P : Program) (H : History) (e : StepId) →
        AreBackward (runs P) (undos e H) }
    ensures end { (P : Program) (H : History) (e : StepId) →
        end_of (runs P) H (undos e H) ≡ without e H }
    ensures least { (P : Program) (H : History) (e : StepId) (r : List Label) → LegalFor P H →
        IsPath (runs P) H r → AreBackward (runs P) r →
        IsFalse (stands e (end_of (runs P) H r)) →
        PathBack (runs P) (without e H) (end_of (runs P) H r) }
{}

/// What a sound journal did is a path from the empty history, which ends in the journal's. So
/// journals leave equivalent histories exactly where what they did is causally equivalent.
pub fn journal_is_a_path()
    ensures path { (P : Program) (J : List Entry) → Sound P J → IsPath (runs P) [] (path_of J) }
    ensures end { (P : Program) (J : List Entry) →
        Sound P J → end_of (runs P) [] (path_of J) ≡ hist J }
    ensures causal { (P : Program) (I J : List Entry) → Sound P I → Sound P J →
        Equivalent (hist I) (hist J) ↔ CausallyEquivalent (runs P) [] (path_of I) (path_of J) }
{}
