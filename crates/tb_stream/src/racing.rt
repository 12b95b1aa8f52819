//! The race that is named for a step.

ghost use Rattle.std.specs.Prelude.{◌≡◌, ◌∷◌, Bool, IfOk, Some, length, suc, true, false, not};
ghost use Rattle.tb_model.specs.Facts.{History, own};
ghost use Rattle.tb_model.specs.Legal.{Cells};
ghost use Rattle.tb_stream.specs.Seen.{Run};
ghost use Rattle.tb_races.specs.Racing;
ghost use Rattle.tb_lanes.specs.Linking.{order_of};
ghost use Rattle.tb_clocks.specs.Ids.{AreIds};
ghost use Rattle.tb_stream.specs.Halves.{Begins, IsFound, conflict_of, event_of};

use crate::access::Access;
use std::alloc::AllocError;
use tb_clocks::Ids;
use tb_model::{Action, StepId, TaskName};
use tb_races::{Conflict, Race};

/// What the action shares with those with which it conflicts.
fn conflict_of(action: &Action) -> Option<Conflict>
    ensures { result ≡ conflict_of action.now }
{
    match action {
        Action::Load { cell, .. } => Some(Conflict::Cell { cell: *cell }),
        Action::Store { cell, .. } => Some(Conflict::Cell { cell: *cell }),
        Action::Print { .. } => Some(Conflict::Print),
        _ => None,
    }
}

/// The race that is named for the step, which has this ordinal in its task, where these are the
/// newest with which it has one by the order with exclusion and by that without.
pub fn race_of(
    ids: &Ids,
    name: &TaskName,
    action: &Action,
    k: u32,
    newest: Option<Access>,
    excluded: Option<Access>,
) -> Result<Option<Race>, AllocError>
    ensures { IfOk result (λ o. (cells : Cells) (H : History) (strict loose : Run)
        → AreIds cells H ids.now
        → Begins true (event_of name.now action.now ∷ H) strict → Begins false (event_of name.now action.now ∷ H) loose
        → k ≡ suc (length (own name.now H)) → IsFound true H (event_of name.now action.now) newest
        → IsFound false H (event_of name.now action.now) excluded → o ≡ Racing.race_of H (event_of name.now action.now)) }
{
    // most steps race with none
    if newest.is_none() && excluded.is_none() {
        return Ok(None);
    }
    match race_with(ids, name, action, k, newest, false)? {
        Some(race) => Ok(Some(race)),
        None => race_with(ids, name, action, k, excluded, true),
    }
}

/// The race of the step with this earlier one, if there is one.
#[inline(always)]
fn race_with(
    ids: &Ids,
    name: &TaskName,
    action: &Action,
    k: u32,
    earlier: Option<Access>,
    apart: bool,
) -> Result<Option<Race>, AllocError>
    ensures { IfOk result (λ o. (cells : Cells) (H : History) (exclusion : Bool) (r : Run)
        → AreIds cells H ids.now → Begins exclusion (event_of name.now action.now ∷ H) r
        → k ≡ suc (length (own name.now H)) → IsFound exclusion H (event_of name.now action.now) earlier
        → apart ≡ not exclusion → o ≡ Racing.newest_race (order_of exclusion) H (event_of name.now action.now) H) }
{
    match earlier {
        Some(access) => race_at(ids, name, action, k, access, apart),
        None => Ok(None),
    }
}

/// The race of the step with this earlier one.
// out of line: a step that races with none doesn't pay for its stack frame
#[inline(never)]
fn race_at(
    ids: &Ids,
    name: &TaskName,
    action: &Action,
    k: u32,
    access: Access,
    apart: bool,
) -> Result<Option<Race>, AllocError>
    ensures { IfOk result (λ o. (cells : Cells) (H : History) (exclusion : Bool) (r : Run)
        → AreIds cells H ids.now → Begins exclusion (event_of name.now action.now ∷ H) r
        → k ≡ suc (length (own name.now H))
        → IsFound exclusion H (event_of name.now action.now) (Some access)
        → apart ≡ not exclusion
        → o ≡ Racing.newest_race (order_of exclusion) H (event_of name.now action.now) H) }
{
    let Some(conflict) = conflict_of(action) else {
        return Ok(None);
    };
    let Some(other) = ids.name(access.mark.task) else {
        return Err(AllocError);
    };
    let first = other.clone()?;
    let second = name.clone()?;
    Ok(Some(Race {
        earlier: StepId {
            task: first,
            k: access.k,
        },
        later: StepId { task: second, k },
        conflict,
        apart,
    }))
}
