//! Why a run of steps stops.

ghost use Rattle.std.specs.Prelude.{◌≡◌};
ghost use Rattle.tb_team.specs.Stops.{stop_word};

/// Why a run executes no more steps: the first that holds, in this order.
#[derive(Clone, Copy, Debug, PartialEq, Eq)]
pub enum Stop {
    /// The step just taken met a breakpoint.
    Break,
    /// All steps that it may take are taken.
    Limit,
    /// No task can step: all have ended.
    Done,
    /// The journal has no slot.
    Full,
}

impl Stop {
    /// How a reply says it.
    pub fn word(&self) -> &'static str
        ensures { result.now ≡ stop_word self.now }
    {
        match self {
            Stop::Break => "break",
            Stop::Limit => "limit",
            Stop::Done => "done",
            Stop::Full => "full",
        }
    }
}
