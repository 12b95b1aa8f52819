//! A law of the definitions: a text has one report.

ghost use Rattle.std.specs.Prelude.{◌≡◌, List, ℕ};
ghost use Rattle.tb_taskcheck.specs.Report.{IsReport};
ghost use Rattle.tb_taskcheck.specs.declared.outcome.Outcome.{Outcome as AnOutcome};

/// Of a text there is at most one report, and one thing that it says. So both are functions of what
/// was read.
pub fn one_report()
    ensures { (lines : List (List ℕ)) (o p : AnOutcome) (out more : List ℕ) →
        IsReport lines o out → IsReport lines p more → (o ≡ p) × (out ≡ more) }
{}
