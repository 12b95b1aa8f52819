//! Why a step isn't taken back.

ghost use Rattle.std.specs.Prelude.{◌≡◌};
ghost use Rattle.tb_core.specs.Refusals.{undo_number};

use tb_model::StepId;

/// Why a step stays.
#[derive(Debug, Drop)]
pub enum UndoRefusal {
    /// A growth was refused.
    Memory,
    /// The step isn't in the history.
    NoSuchStep,
    /// A later step needs it, of which this is the earliest.
    Needed { by: StepId },
    /// The journal has no slot for the undo.
    Full,
}

impl UndoRefusal {
    /// The code by which replies name the refusal.
    pub fn number(&self) -> u8
        ensures { result ≡ undo_number self.now }
    {
        match self {
            UndoRefusal::Memory => 0,
            UndoRefusal::NoSuchStep => 1,
            UndoRefusal::Needed { .. } => 2,
            UndoRefusal::Full => 3,
        }
    }
}
