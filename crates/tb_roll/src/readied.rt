//! A rollback for which all memory is taken.

ghost use Rattle.std.specs.Prelude.{◌≡◌};

use tb_core::Rollback;
use tb_model::StepId;

/// A step with all that need it, and the capacity in which they are taken back, which is always
/// there. It is of one history: once that has changed it serves no more.
#[derive(Drop)]
pub struct Ready {
    pub rollback: Rollback,
}

impl Ready {
    /// The step that was chosen.
    pub fn step(&self) -> &StepId
        ensures { result.now ≡ self.now.rollback.step }
    {
        &self.rollback.step
    }

    /// The steps that go, in the order of the history, the chosen one first.
    pub fn steps_to_remove(&self) -> &[StepId]
        ensures { result.now ≡ self.now.rollback.steps.items }
    {
        self.rollback.steps.as_slice()
    }
}

/// The patterns name every field: what is prepared holds no program, and no copy of an earlier
/// state. They are compiled with the crate, so that a further field is refused until it is named
/// here.
fn name_every_field(ready: &Ready) {
    let Ready { rollback } = ready;
    let Rollback {
        step: _,
        places: _,
        steps: _,
        count: _,
        removed: _,
    } = rollback;
}
