//! Laws of the definitions: what holds of each line that is read.

ghost use Rattle.std.specs.Prelude.{◌≡◌, ℕ, List, Ok, Option, Some, true};
ghost use Rattle.tb_model.specs.declared.event.Event.{Event};
ghost use Rattle.tb_plan.specs.Plans.{names_allowed};
ghost use Rattle.tb_runs.specs.Lines.{Firsts, cells_at, line_said};
ghost use Rattle.tb_runs.specs.declared.said.Said.TheVariants.{Event as AnEvent};
ghost use Rattle.tb_runs.specs.declared.said.Stage.{Stage};

/// What an event names is in range: its registers are r0 to r15, its cells are among those that
/// there are, and it has at most 16 arguments.
pub fn in_range()
    ensures { (firsts : Firsts) (at : Stage) (line : List ℕ) (k : Option ℕ) (v : Event) →
        line_said firsts at line ≡ Ok (Some (AnEvent k v)) → names_allowed (cells_at at) v.action ≡ true }
{}
