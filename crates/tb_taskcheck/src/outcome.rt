//! What a report says of a run.

ghost use Rattle.std.specs.Prelude.{◌≡◌};
ghost use Rattle.tb_taskcheck.specs.Report.{status_of};

/// What a report says of a run.
#[derive(Clone, Copy, Debug, PartialEq, Eq, Drop)]
pub enum Outcome {
    /// A legal run, all of whose tasks have ended, and which isn't racing.
    Over,
    /// A legal run, some of whose tasks haven't ended, and which isn't racing.
    Unended,
    /// A legal run, whether or not it is over, of which two steps race that exclusion doesn't
    /// separate.
    Racing,
    /// A run with an event that may not follow those in front of it.
    Refused,
}

impl Outcome {
    /// The exit status of the program.
    pub fn status(&self) -> u8
        ensures { result ≡ status_of self.now }
    {
        match self {
            Outcome::Over => 0,
            Outcome::Refused => 1,
            Outcome::Racing => 2,
            Outcome::Unended => 3,
        }
    }
}
