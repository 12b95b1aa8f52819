//! What the types of one team's values agree on.

use std::marker::Brand;
use std::sync::ledger::Ledger;

/// Names one team: how many seats it has, its journal's slots that have a cell, with these cells, and the program, the limit,
/// the breakpoints and the journal of the run that it was handed.
pub trait Team: Ledger {
    ghost use Rattle.std.specs.Prelude.{ℕ, List};
    ghost use Rattle.tb_model.specs.declared.entry.Entry.{Entry};
    ghost use Rattle.tb_model.specs.Program.{Program};
    ghost use Rattle.tb_live.specs.Breaks.{Points};
    ghost use Rattle.tb_work.specs.Slots.{Slots};

    ghost seats: { ℕ };

    ghost slots: { Slots };

    ghost program: { Program };

    ghost limit: { ℕ };

    ghost breakpoints: { Points };

    ghost begun: { List Entry };
}

impl Team for Brand {
    ghost use Rattle.std.specs.Prelude.{[]};
    ghost use Rattle.tb_live.specs.Breaks.{no_points};

    ghost seats = { 0 };

    ghost slots = { record { first = 1; cells = [] } };

    ghost program = { record { cells = []; lines = []; bodies = []; root_line = 0 } };

    ghost limit = { 0 };

    ghost breakpoints = { no_points };

    ghost begun = { [] };
}
