//! Whether it is a task's turn.

ghost use Rattle.std.specs.Prelude.{◌≡◌, suc};
ghost use Rattle.tb_model.specs.Facts.{is_start};
ghost use Rattle.tb_verdict.specs.Refusals.{is_due, out_of_turn, started_by};

use crate::refusal::Refusal;
use tb_model::Action;

/// Whether the step may have this ordinal.
#[inline(always)]
fn is_due(step: Option<u64>, due: u64) -> bool
    ensures { result ≡ is_due step due }
{
    match step {
        Some(k) => k == due,
        None => true,
    }
}

/// Whether the action may be a task's next after so many steps: its start comes first, and once.
#[inline(always)]
fn started_by(steps: u32, is_start: bool) -> Option<Refusal>
    ensures { result ≡ started_by steps is_start }
{
    match (steps, is_start) {
        (0, true) => None,
        (0, false) => Some(Refusal::NotStarted),
        (_, true) => Some(Refusal::Started),
        (_, false) => None,
    }
}

/// Why it isn't the step's turn, after so many steps of its task.
#[inline(always)]
pub fn out_of_turn(step: Option<u64>, steps: u32, action: &Action) -> Option<Refusal>
    ensures { result ≡ out_of_turn step steps action.now }
{
    let due = u64::from(steps) + 1;
    if !is_due(step, due) {
        return Some(Refusal::Step { due });
    }
    started_by(steps, action.is_start())
}
