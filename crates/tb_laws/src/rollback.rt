//! Rollback: what goes with a step, and what is left.
//! A history is listed from its newest event.

ghost use Rattle.std.specs.Prelude.{◌≡◌, ◌∷◌, ◌++◌, ◌↔◌, ℕ, List, [], Some, None, if◌then◌else◌, IsTrue, IsFalse, not};
ghost use Rattle.tb_model.specs.declared.event.Event.{Event};
ghost use Rattle.tb_model.specs.declared.step_id.StepId.{StepId};
ghost use Rattle.tb_model.specs.Facts.{History, prepend_if, own, last};
ghost use Rattle.tb_model.specs.Legal.{Cells, Legal, first_number};
ghost use Rattle.tb_model.specs.State.{spawn_of};
ghost use Rattle.tb_model.specs.Records.{args_in, register, replaced_by, cell_back, register_back};
ghost use Rattle.tb_model.specs.Needs.{needs, is_removed, without, kept, step_of};
ghost use Rattle.tb_model.specs.Needers.{first_needer};
ghost use Rattle.tb_model.specs.Causes.{causes, causes_by_pass};
ghost use Rattle.tb_model.specs.Closure.{Needs};
ghost use Rattle.tb_model.specs.Program.{Program, LegalFor};
ghost use Rattle.tb_model.specs.Lines.{Departure, events_of, without_lines, LinesFit};
ghost use Rattle.tb_model.specs.Equivalent.{stands};
ghost use Rattle.tb_model.specs.Reordering.{IsUnneeded};
ghost use Rattle.tb_model.specs.declared.entry.Entry.{Entry};
ghost use Rattle.tb_model.specs.Journal.{hist, Sound};

/// An event is removed with an earlier one exactly where it needs it, by the least relation that
/// contains the direct needs and is closed under chaining.
#[tactic(auto, using(tb_model::proofs::LeastLemmas::removed_needs))]
pub fn least()
    ensures { (later : History) (v u : Event) (front : History) →
        IsTrue (is_removed (step_of front u) (later ++ u ∷ front) v)
        ↔ Needs (v ∷ (later ++ u ∷ front)) (u ∷ front) }
{}

/// What an event needs is found by one pass from the newest event in front of it.
#[tactic(auto, using(crate::proofs::CausesLemmas::one_pass))]
pub fn causes_by_one_pass()
    ensures { (H : History) (v : Event) →
        causes_by_pass (record { event = v; front = H } ∷ []) H ≡ causes H v H }
{}

/// What is left of a legal history without a step and all that need it is legal.
#[tactic(auto, using(tb_model::proofs::RemovalLemmas::removal))]
pub fn removal()
    ensures { (cells : Cells) (H : History) (e : StepId) →
        Legal cells H → Legal cells (without e H) }
{}

/// What is left of a program's run is a run of the program.
#[tactic(auto, using(tb_model::proofs::NextLemmas::removal_for))]
pub fn removal_for()
    ensures { (P : Program) (H : History) (e : StepId) →
        LegalFor P H → LegalFor P (without e H) }
{}

/// What is left retains its lines.
#[tactic(auto, using(tb_model::proofs::LinesLemmas::events_left, tb_model::proofs::LinesLemmas::lines_left))]
pub fn lines_left()
    ensures events { (e : StepId) (D : List Departure) →
        events_of (without_lines e D) ≡ without e (events_of D) }
    ensures lines { (P : Program) (e : StepId) (D : List Departure) →
        LinesFit P D → LinesFit P (without_lines e D) }
{}

/// What is left retains its records: what an event replaced is the same after the shorter history.
#[tactic(auto, using(tb_model::proofs::RecordsLemmas::record_stays))]
pub fn record_stays()
    ensures { (cells : Cells) (e : StepId) (H : History) (v : Event) →
        IsFalse (is_removed e H v) → replaced_by cells (without e H) v ≡ replaced_by cells H v }
{}

/// A step goes alone exactly where no step needs it.
#[tactic(auto, using(crate::proofs::NeedersLemmas::unneeded))]
pub fn unneeded()
    ensures { (e : StepId) (H : History) → IsTrue (stands e H) →
        IsUnneeded e H ↔ (first_needer e H ≡ None) }
{}

/// The earliest step that needs a step needs it directly: after a history in which none needs it,
/// an event is the first exactly where it directly needs it, and stays the first.
#[tactic(auto, using(crate::proofs::NeedersLemmas::none_here, crate::proofs::NeedersLemmas::next_needer, crate::proofs::NeedersLemmas::needer_stays))]
pub fn first_needs_directly()
    ensures itself { (front : History) (u : Event) → first_needer (step_of front u) (u ∷ front) ≡ None }
    ensures next { (later front : History) (u v : Event) →
        first_needer (step_of front u) (later ++ u ∷ front) ≡ None →
        first_needer (step_of front u) (v ∷ (later ++ u ∷ front))
        ≡ (if needs (later ++ u ∷ front) v u then Some (step_of (later ++ u ∷ front) v) else None) }
    ensures stays { (e : StepId) (later H : History) (i : StepId) →
        first_needer e H ≡ Some i → first_needer e (later ++ H) ≡ Some i }
{}

/// A rollback may go one undo after another, from the newest event that goes: once all later ones
/// are taken back, nothing needs the next. `kept` is what is left of the later part; it grows by
/// what stays, and at the beginning of the history it is all that is left.
#[tactic(auto, using(crate::proofs::OneByOneLemmas::one_unneeded, crate::proofs::OneByOneLemmas::kept_more, crate::proofs::OneByOneLemmas::kept_whole))]
pub fn one_by_one()
    ensures unneeded { (e : StepId) (later : History) (u : Event) (front : History) →
        IsTrue (is_removed e front u) →
        IsUnneeded (step_of front u) (kept e later (u ∷ front) ++ u ∷ front) }
    ensures grows { (e : StepId) (later : History) (u : Event) (front : History) →
        kept e (later ++ u ∷ []) front
        ≡ kept e later (u ∷ front) ++ prepend_if (not (is_removed e front u)) u [] }
    ensures whole { (e : StepId) (H : History) → kept e H [] ≡ without e H }
{}

/// By its record alone a step is taken back: the cell or the register has its former value, and no
/// other has changed.
#[tactic(auto, using(tb_model::proofs::RecordsLemmas::cell_taken_back, tb_model::proofs::RecordsLemmas::register_taken_back))]
pub fn record_takes_back()
    ensures cell { (cells : Cells) (H : History) (v : Event) (c : ℕ) →
        cell_back v.action (replaced_by cells H v) c (last (first_number cells c) c (v ∷ H))
        ≡ last (first_number cells c) c H }
    ensures register { (cells : Cells) (H : History) (v : Event) (r : ℕ) →
        let args = args_in (spawn_of v.task H) in
        register_back v.action (replaced_by cells H v) r (register r args (v.action ∷ own v.task H))
        ≡ register r args (own v.task H) }
{}

/// The history of a sound journal is a run of the program.
#[tactic(auto, using(crate::proofs::JournalLemmas::journal_legal))]
pub fn sound_journal()
    ensures { (P : Program) (J : List Entry) → Sound P J → LegalFor P (hist J) }
{}
