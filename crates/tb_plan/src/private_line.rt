//! A private statement with the lines that follow it.

ghost use Rattle.std.specs.Prelude.{IsTrue};
ghost use Rattle.tb_plan.specs.Privacy.{statement_of};
ghost use Rattle.tb_plan.specs.Statements.{is_sound};

use crate::private::Private;

/// The private statement of a line, and the lines that follow (`otherwise` after a test that says
/// no).
#[derive(Clone, Copy, Debug, Drop)]
pub struct PrivateLine {
    pub statement: Private,
    pub next: u32,
    pub otherwise: u32,
    /// The statement's registers are 0 to 15.
    pub ghost sound: { IsTrue (is_sound (statement_of statement)) },
}
