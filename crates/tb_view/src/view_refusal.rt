//! Why a view isn't shown.

ghost use Rattle.std.specs.Prelude.{◌≡◌};
ghost use Rattle.tb_view.specs.Refusals.{view_number};

/// Why a view isn't shown.
#[derive(Clone, Copy, Debug, Drop, PartialEq, Eq)]
pub enum ViewRefusal {
    /// A growth was refused.
    Memory,
    /// The step isn't in the history.
    NoSuchStep,
    /// The task is neither the root nor spawned in the history.
    NoSuchTask,
}

impl ViewRefusal {
    /// The code by which replies name the refusal.
    pub fn number(&self) -> u8
        ensures { result ≡ view_number self.now }
    {
        match self {
            ViewRefusal::Memory => 0,
            ViewRefusal::NoSuchStep => 1,
            ViewRefusal::NoSuchTask => 1,
        }
    }
}
