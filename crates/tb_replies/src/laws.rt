//! Laws of replies, over the definitions alone.

ghost use Rattle.std.specs.Prelude.{◌≡◌, ◌∷◌, ℕ, true, false, is_some, IsFalse, List, Some};
ghost use Rattle.tb_model.specs.declared.entry.Entry.TheVariants.{Stepped};
ghost use Rattle.tb_model.specs.Names.{Name};
ghost use Rattle.tb_model.specs.Program.{Program};
ghost use Rattle.tb_live.specs.Modes.{counted, counting, is_paused};
ghost use Rattle.tb_live.specs.Moves.{coming};
ghost use Rattle.tb_live.specs.Session.{Session, opened};
ghost use Rattle.tb_replies.specs.Reading.{IsProgram};
ghost use Rattle.tb_replies.specs.Replies.{Answers};
ghost use Rattle.tb_commands.specs.Commands.{AsksSeveral};
ghost use Rattle.tb_team.specs.Turns.{stop_of, turned};
ghost use Rattle.tb_replies.specs.Laws.{IsSound, is_break, met_by};
ghost use Rattle.tb_team.specs.declared.stop.Stop.TheVariants.{Break, Limit};

/// In every session each line has a reply. It is the only one, a function of the session, unless the line
/// asks for a go of several workers.
#[tactic(auto, using(crate::proofs::TotalLemmas::some_answer, crate::proofs::TotalLemmas::one_answer))]
pub fn one_reply()
    ensures some { (workers : ℕ) (s : Session) (line : List ℕ) →
        (out : List ℕ) × (new : Session) × Answers workers s line out new }
    ensures one { (workers : ℕ) (s new other : Session) (line out more : List ℕ) →
        (AsksSeveral workers line → ⊥) → Answers workers s line out new
        → Answers workers s line more other → (out ≡ more) × (new ≡ other) }
{}

/// A session begins with a sound journal, and no reply leaves another: each step that it writes is
/// the task's next one, and each step that it takes back was there.
#[tactic(auto, using(crate::proofs::TotalLemmas::answer_sound))]
pub fn sound_journals()
    ensures opened { (text : List ℕ) (P : Program) (limit : ℕ) → IsProgram text P →
        IsSound (opened P limit 65) }
    ensures kept { (workers : ℕ) (s new : Session) (line out : List ℕ) →
        IsSound s → Answers workers s line out new → IsSound new }
{}

/// A step that is taken in a run that goes on pauses it for a breakpoint exactly where it meets one
/// that is there; else the steps that were asked for are one fewer.
#[tactic(auto, using(crate::proofs::TurnLemmas::stops_where_met, crate::proofs::TurnLemmas::goes_on_unmet))]
pub fn stops_at_breakpoints()
    ensures stops { (s : Session) (seat : ℕ) (t : Name) → IsFalse (is_paused s.control.mode) →
        is_break (turned seat s t).control.mode ≡ is_some (met_by s t) }
    ensures goes_on { (s : Session) (seat : ℕ) (t : Name) →
        is_some (met_by s t) ≡ false → (turned seat s t).control.mode ≡ counted s.control.mode }
{}

/// The turns of a `go`, of however many workers: what follows a turn has that turn's step as its
/// newest entry, of the seat that took it, and no other entry is new. A breakpoint ends a `go`, and
/// so does the last of its steps.
#[tactic(auto, using(crate::proofs::TurnLemmas::turn_enters, crate::proofs::TurnLemmas::break_ends, crate::proofs::TurnLemmas::limit_ends))]
pub fn turns()
    ensures enters { (s : Session) (seat : ℕ) (t : Name) →
        (turned seat s t).journal ≡ Stepped seat (coming s t) ∷ s.journal }
    ensures breaks { (s : Session) → is_break s.control.mode ≡ true → stop_of s ≡ Some Break }
    ensures limit { (s : Session) → s.control.mode ≡ counting 0 → stop_of s ≡ Some Limit }
{}
