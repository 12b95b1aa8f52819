//! A step of the history as it is stored.

ghost use Rattle.std.specs.Prelude.{◌≡◌};
ghost use Rattle.tb_core.specs.Storing.{replaced_stored, stored};

use std::mem::size_of;
use tb_model::Action;
use tb_store::Replaced;

/// A step, and what it replaced, in few bytes. Its task is given by its index among the names of
/// the tables, which a name retains for good. Whether there is a value, and of which register, the
/// action says.
#[derive(Drop)]
pub struct Entry {
    pub(crate) action: Action,
    /// The value that it replaced, of a cell or of a register, and 0 where it replaced none.
    pub(crate) number: i64,
    pub(crate) task: u32,
    /// The line at which its task was. That to which the step led is the line of the task's next
    /// one.
    pub(crate) at: u32,
}

const _: () = prove!(size_of::<Entry>() == 32);

impl Entry {
    /// The stored step of an action of the task at this index, which replaces so much.
    #[inline(always)]
    pub(crate) fn new(task: u32, action: Action, replaced: Replaced) -> Entry
        ensures { result ≡ stored task action replaced }
    {
        Entry {
            action,
            number: replaced.number.unwrap_or(0),
            task,
            at: replaced.at,
        }
    }

    /// What is at the index of a stored step that was taken out.
    pub(crate) fn hollow() -> Entry {
        Entry {
            action: Action::End,
            number: 0,
            task: 0,
            at: 0,
        }
    }

    /// What the step replaced.
    pub(crate) fn replaced(&self) -> Replaced
        ensures { result ≡ replaced_stored self.now }
    {
        let at = self.at;
        match &self.action {
            Action::Let { reg, .. } | Action::Load { reg, .. } => Replaced {
                number: Some(self.number),
                reg: Some(*reg),
                at,
            },
            Action::Store { .. } => Replaced {
                number: Some(self.number),
                reg: None,
                at,
            },
            _ => Replaced {
                number: None,
                reg: None,
                at,
            },
        }
    }
}
