//! Whether steps are executed.

ghost use Rattle.std.specs.Prelude.{◌≡◌};
ghost use Rattle.tb_control.specs.Modes as modes;

use crate::paused_by::PausedBy;

/// Whether claims give work and commits come, and for how long.
#[derive(Clone, Copy, Debug, Drop, PartialEq, Eq)]
pub enum Mode {
    Resumed,
    /// As many steps more are taken as are left, and then none.
    Counting { left: u32 },
    Paused { by: PausedBy },
}

impl Mode {
    pub fn is_paused(&self) -> bool
        ensures { result ≡ modes.is_paused self.now }
    {
        matches!(self, Mode::Paused { .. })
    }

    /// The mode in which so many steps more are taken.
    pub fn counting(steps: u32) -> Mode
        ensures { result ≡ modes.counting steps }
    {
        if steps == 0 {
            Mode::Paused {
                by: PausedBy::Count,
            }
        } else {
            Mode::Counting { left: steps }
        }
    }

    /// The mode after a call of `pause`. A paused run retains what paused it.
    pub fn paused(self) -> Mode
        ensures { result ≡ modes.paused self }
    {
        match self {
            Mode::Paused { by } => Mode::Paused { by },
            _ => Mode::Paused {
                by: PausedBy::Pause,
            },
        }
    }

    /// The mode after a step that met the breakpoint with this number, or none.
    pub fn behind(self, met: Option<u32>) -> Mode
        ensures { result ≡ modes.behind met self }
    {
        match met {
            Some(number) => Mode::Paused {
                by: PausedBy::Break { number },
            },
            None => match self {
                Mode::Counting { left } => Mode::counting(left.saturating_sub(1)),
                other => other,
            },
        }
    }
}
