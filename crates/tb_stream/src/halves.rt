//! The races by both orders.

ghost use Rattle.std.specs.Prelude.{◌≡◌, ◌∷◌, [], IfOk, OnOk, None, Some, false, true};
ghost use Rattle.tb_model.specs.declared.event.Event.{Event};
ghost use Rattle.tb_model.specs.Facts.{History};
ghost use Rattle.tb_model.specs.State.{items_in};
ghost use Rattle.tb_stream.specs.Exclusion.{has_exclusive};
ghost use Rattle.tb_stream.specs.Halves.{AreHalves, IsFound, Takes};

use crate::access::Access;
use crate::half::Half;
use std::alloc::{AllocError, Global};
use tb_clocks::Tasks;
use tb_model::{Action, Kind};

/// Whether the action generates a task that may exclude others.
fn has_exclusive(action: &Action) -> bool
    ensures { result ≡ has_exclusive (items_in (Some action.now)) }
{
    match action {
        Action::Spawn(spawned) => spawned
            .get()
            .items
            .as_slice()
            .iter()
            .any(|item| matches!(item.kind, Kind::Mutexinoutset)),
        _ => false,
    }
}

/// The races by the order with exclusion and by that without. As long as no task of a run may exclude
/// others, both are one order.
#[derive(Drop)]
pub struct Halves {
    /// By the order with exclusion.
    strict: Half,
    /// By the order without it, once a task may exclude others.
    loose: Option<Half>,
}

impl Halves {
    /// No steps yet.
    pub fn new(alloc: Global) -> Result<Halves, AllocError>
        ensures { IfOk result (AreHalves []) }
    {
        Ok(Halves {
            strict: Half::new(alloc, true)?,
            loose: None,
        })
    }

    /// Makes the order without exclusion, where the next action is the first to generate a task that
    /// may exclude others.
    fn part(&mut self, action: &Action) -> Result<(), AllocError>
        ensures halves { OnOk result ((H : History) → AreHalves H self.old → AreHalves H self.new) }
        ensures parted { OnOk result (self.new.loose ≡ None
            → has_exclusive (items_in (Some action.now)) ≡ false) }
    {
        if self.loose.is_some() {
            return Ok(());
        }
        if has_exclusive(action) {
            let half = self.strict.without_exclusion()?;
            self.loose = Some(half);
        }
        Ok(())
    }

    /// Adds the next step, and returns the newest with which it races by the order with exclusion and
    /// by that without.
    pub fn take(
        &mut self,
        tasks: &Tasks,
        action: &Action,
        at: usize,
        task: usize,
        k: u32,
    ) -> Result<(Option<Access>, Option<Access>), AllocError>
        ensures strict { IfOk result (λ found. (H : History) (v : Event) → AreHalves H self.old
            → Takes H v tasks.now action.now at task k → IsFound true H v found.0) }
        ensures loose { IfOk result (λ found. (H : History) (v : Event) → AreHalves H self.old
            → Takes H v tasks.now action.now at task k → IsFound false H v found.1) }
        ensures halves { OnOk result ((H : History) (v : Event) → AreHalves H self.old
            → Takes H v tasks.now action.now at task k → AreHalves (v ∷ H) self.new) }
    {
        self.part(action)?;
        let strict = self.strict.take(tasks, action, at, task, k)?;
        match &mut self.loose {
            Some(half) => {
                let loose = half.take(tasks, action, at, task, k)?;
                Ok((strict, loose))
            }
            None => Ok((strict, strict)),
        }
    }
}
