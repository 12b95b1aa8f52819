//! A statement of a text.

ghost use Rattle.std.specs.Prelude.{IsTrue};
ghost use Rattle.tb_plan.specs.Statements.{is_sound};

use tb_model::Statement;

/// A statement as a line has it.
#[derive(Debug, Drop)]
pub struct Parsed {
    pub statement: Statement,
    pub ghost sound: { IsTrue (is_sound statement) },
}
