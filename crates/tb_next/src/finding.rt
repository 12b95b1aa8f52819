//! What a seat finds to do.

ghost use Rattle.std.specs.Prelude.{◌≡◌, IfSome, IfNone, IfOk, IsTrue, IsFalse};
ghost use Rattle.tb_model.specs.Facts.{is_spawned};
ghost use Rattle.tb_core.specs.Seen.{history};
ghost use Rattle.tb_core.specs.Outcomes.{has_ended};
ghost use Rattle.tb_next.specs.Fitting.{Fits};
ghost use Rattle.tb_next.specs.Floor.{IsFloor};
ghost use Rattle.tb_next.specs.Plans.{IsFound, IsWorkOf, IsBarred, IsUnbarred, claimed};

use crate::floor::Floor;
use crate::offer::Offer;
use crate::planning::work_of;
use crate::ready::free_task;
use crate::work::Work;
use std::alloc::{AllocError, Global};
use tb_control::{ClaimRefusal, Claims};
use tb_core::Core;
use tb_model::TaskName;
use tb_read::Program;

/// Why the seat can't claim the task.
pub fn barred(core: &Core, claims: &Claims, seat: u32, task: &TaskName) -> Option<ClaimRefusal>
    ensures some { IfSome result (IsBarred core.now.run claims.now seat task.now) }
    ensures none { IfNone result (IsUnbarred core.now.run claims.now seat task.now) }
{
    if !core.is_there(task) {
        return Some(ClaimRefusal::NoSuchTask);
    }
    if core.has_ended(task) {
        return Some(ClaimRefusal::Ended);
    }
    let seat = claims.held_beside(seat, task)?;
    Some(ClaimRefusal::Claimed { seat })
}

/// The name of the task, and what it does next.
pub fn taken_on(
    program: &Program,
    core: &Core,
    task: &TaskName,
) -> Result<(TaskName, Work), AllocError>
    requires fits { Fits program.now core.now.run }
    requires there { IsTrue (is_spawned (history core.now.run) task.now) }
    requires going { IsFalse (has_ended core.now.run task.now) }
    ensures { IfOk result (λ taken. (taken.0 ≡ task.now) × IsWorkOf program.now core.now.run task.now taken.1) }
{
    let name = task.clone()?;
    let work = work_of(program, core, task)?;
    Ok((name, work))
}

/// What the seat finds to do, with the name of the task that it then claims.
pub fn named_offer(
    alloc: Global,
    program: &Program,
    core: &Core,
    claims: &Claims,
    floor: &mut Floor,
    seat: u32,
) -> Result<(Option<TaskName>, Offer), AllocError>
    requires fits { Fits program.now core.now.run }
    requires floor { IsFloor program.now (history core.now.run) floor.old }
    ensures found { IfOk result (λ r. (r.0 ≡ claimed r.1) × IsFound program.now core.now.run claims.now seat r.1) }
    ensures floor { IsFloor program.now (history core.now.run) floor.new }
{
    let offer = free_task(alloc, program, core, claims, floor, seat)?;
    let name = name_of(&offer)?;
    Ok((name, offer))
}

fn name_of(offer: &Offer) -> Result<Option<TaskName>, AllocError>
    ensures { IfOk result (λ name. name ≡ claimed offer.now) }
{
    match offer {
        Offer::Task(task) => Ok(Some(task.config.task.clone()?)),
        _ => Ok(None),
    }
}
