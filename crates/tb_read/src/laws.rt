//! Laws of the definitions: what holds of each program that was accepted.

ghost use Rattle.std.specs.Prelude.{ℕ, List};
ghost use Rattle.tb_model.specs.Program.{Program};
ghost use Rattle.tb_model.specs.WellFormed.{WellFormed};
ghost use Rattle.tb_read.specs.Followed.{IsFollowed};
ghost use Rattle.tb_read.specs.Meaning.{IsPosition, IsProgramOf};
ghost use Rattle.tb_read.specs.Reading.{IsAccepted};

/// A program that was accepted is well formed. Its root's body begins at a line with a statement,
/// and each statement but a body's end is followed by one of the same body: no run leaves its body.
#[tactic(auto, using(crate::proofs::WellFormedLemmas::accepted_well_formed, crate::proofs::WellFormedLemmas::accepted_root, crate::proofs::WellFormedLemmas::accepted_followed))]
pub fn accepted_is_well_formed()
    ensures well_formed { (lines : List (List ℕ)) (P : Program) → IsAccepted lines → IsProgramOf lines P → WellFormed P }
    ensures root { (lines : List (List ℕ)) (P : Program) → IsAccepted lines → IsProgramOf lines P → IsPosition P P.root_line }
    ensures followed { (lines : List (List ℕ)) (P : Program) → IsAccepted lines → IsProgramOf lines P → IsFollowed P }
{}
