//! The least task that can step.

ghost use Rattle.std.specs.Prelude.{◌≡◌, ◌↔◌, IfNone, IfOk, IfSome, IsFalse, IsTrue, Some, is_some};
ghost use Rattle.std.specs.Option.{option_copied};
ghost use Rattle.tb_model.specs.Facts.{is_spawned};
ghost use Rattle.tb_model.specs.Hindrances.{can_step, least_ready};
ghost use Rattle.tb_model.specs.State.{is_unended};
ghost use Rattle.tb_core.specs.Naming.{config_with};
ghost use Rattle.tb_core.specs.Outcomes.{has_ended};
ghost use Rattle.tb_core.specs.Seen.{history};
ghost use Rattle.tb_core.specs.Situation.{config_of};
ghost use Rattle.tb_next.specs.Fitting.{Fits};
ghost use Rattle.tb_control.specs.Claims.{IsFreeBeside};
ghost use Rattle.tb_next.specs.Floor.{IsFloor, IsPassed};
ghost use Rattle.tb_next.specs.Plans.{IsComing, IsLeastComing, CanTake, IsFound, IsOfferOn, IsRefusalOf, IsTold};

use crate::coming::Coming;
use crate::floor::Floor;
use crate::offer::Offer;
use crate::planning::{coming_at, situated_of};
use std::alloc::{AllocError, Global};
use tb_control::Claims;
use tb_core::{Core, StepRefusal};
use tb_model::TaskName;
use tb_read::Program;
use tb_undo::Standing;

/// What the task does next, where it can.
#[inline(always)]
fn clear_coming(
    alloc: Global,
    program: &Program,
    core: &Core,
    task: &TaskName,
) -> Result<Option<Coming>, AllocError>
    requires { Fits program.now core.now.run }
    ensures coming { IfOk result (λ o. IfSome o (IsComing program.now core.now.run task.now)) }
    ensures can { IfOk result (λ o. can_step program.now (history core.now.run) task.now ≡ is_some o) }
{
    let Some(standing) = core.standing(task) else {
        return Ok(None);
    };
    if core.has_ended(task) {
        return Ok(None);
    }
    clear_at(alloc, program, core, task, &standing)
}

/// What a task that goes on does next, where it can. Its situation is given, so that it isn't
/// looked for.
#[inline(always)]
fn clear_at(
    alloc: Global,
    program: &Program,
    core: &Core,
    task: &TaskName,
    standing: &Standing<'_>,
) -> Result<Option<Coming>, AllocError>
    requires fits { Fits program.now core.now.run }
    requires there { IsTrue (is_spawned (history core.now.run) task.now) }
    requires going { IsFalse (has_ended core.now.run task.now) }
    requires here { config_of core.now.run task.now ≡ config_with task.now standing.now }
    ensures coming { IfOk result (λ o. IfSome o (IsComing program.now core.now.run task.now)) }
    ensures can { IfOk result (λ o. can_step program.now (history core.now.run) task.now ≡ is_some o) }
{
    let coming = coming_at(alloc, program, core, task, standing)?;
    if core.is_clear_at(standing, task, &coming.action) {
        Ok(Some(coming))
    } else {
        Ok(None)
    }
}

/// What an unended task does next, where it can, in a walk over such tasks: `near` hands on where
/// the last one was found.
#[inline(always)]
fn unended_coming(
    alloc: Global,
    program: &Program,
    core: &Core,
    near: &mut Option<usize>,
    task: &TaskName,
) -> Result<Option<Coming>, AllocError>
    requires fits { Fits program.now core.now.run }
    requires unended { IsTrue (is_unended (history core.now.run) task.now) }
    ensures coming { IfOk result (λ o. IfSome o (IsComing program.now core.now.run task.now)) }
    ensures can { IfOk result (λ o. can_step program.now (history core.now.run) task.now ≡ is_some o) }
{
    match core.walk_standing(near, task) {
        Some(standing) => clear_at(alloc, program, core, task, &standing),
        None => unreachable!(),
    }
}

/// Why the task's next step would be refused now, a full journal aside. In a walk over tasks it hands on where the last one
/// was found.
pub fn refusal_of(
    alloc: Global,
    program: &Program,
    core: &Core,
    near: &mut Option<usize>,
    task: &TaskName,
) -> Result<Option<StepRefusal>, AllocError>
    requires { Fits program.now core.now.run }
    ensures { IfOk result (IsRefusalOf program.now core.now.run task.now) }
{
    let Some(standing) = core.walk_standing(near, task) else {
        return Ok(Some(StepRefusal::NoSuchTask));
    };
    if core.has_ended_at(&standing, task) {
        return Ok(Some(StepRefusal::Ended));
    }
    let coming = coming_at(alloc, program, core, task, &standing)?;
    match core.hindrance(&standing, task, &coming.action) {
        Some(refusal) => told(refusal),
        None => Ok(None),
    }
}

/// What a refusal says of the task: a full history is none of its matters.
fn told(refusal: StepRefusal) -> Result<Option<StepRefusal>, AllocError>
    ensures { IfOk result (IsTold refusal) }
{
    match refusal {
        StepRefusal::Memory => Err(AllocError),
        StepRefusal::Full => Ok(None),
        refusal => Ok(Some(refusal)),
    }
}

/// The task of the search start with what it does, if there is one and it can step.
#[inline(always)]
pub fn known_coming(
    alloc: Global,
    program: &Program,
    core: &Core,
    floor: &Floor,
) -> Result<Option<(TaskName, Coming)>, AllocError>
    requires fits { Fits program.now core.now.run }
    requires floor { IsFloor program.now (history core.now.run) floor.now }
    ensures least { IfOk result (λ found. IfSome found (λ r. IsLeastComing program.now core.now.run (Some r))) }
    ensures passed { IfOk result (λ found. IfNone found (IsPassed program.now (history core.now.run) floor.now)) }
{
    let Some(task) = floor.task() else {
        return Ok(None);
    };
    match clear_coming(alloc, program, core, task) {
        Ok(Some(coming)) => named(task, coming),
        Ok(None) => Ok(None),
        Err(_) => Err(AllocError),
    }
}

/// The least task that can step, with what it does; it becomes the search start. The tasks that
/// haven't ended are asked in the order of their names, from the search start on.
pub fn least_coming(
    alloc: Global,
    program: &Program,
    core: &Core,
    floor: &mut Floor,
) -> Result<Option<(TaskName, Coming)>, AllocError>
    requires fits { Fits program.now core.now.run }
    requires floor { IsFloor program.now (history core.now.run) floor.old }
    ensures least { IfOk result (IsLeastComing program.now core.now.run) }
    ensures floor { IsFloor program.now (history core.now.run) floor.new }
{
    match known_coming(alloc, program, core, floor) {
        Ok(Some(found)) => Ok(Some(found)),
        Ok(None) => least_behind(alloc, program, core, floor),
        Err(_) => Err(AllocError),
    }
}

/// The least task that can step, with what it does, where the task of the search start, if there is
/// one, can't; it becomes the search start.
// out of line: a task's step after its own doesn't pay for its stack frame
#[inline(never)]
pub fn least_behind(
    alloc: Global,
    program: &Program,
    core: &Core,
    floor: &mut Floor,
) -> Result<Option<(TaskName, Coming)>, AllocError>
    requires fits { Fits program.now core.now.run }
    requires floor { IsFloor program.now (history core.now.run) floor.old }
    requires passed { IsPassed program.now (history core.now.run) floor.old }
    ensures least { IfOk result (IsLeastComing program.now core.now.run) }
    ensures floor { IsFloor program.now (history core.now.run) floor.new }
{
    let mut near = None;
    let found = coming_behind(alloc, program, core, &mut near, floor.task())?;
    if let Some(found) = &found {
        floor.raise(&found.0, near);
    }
    Ok(found)
}

/// What the task does next, with a copy of its name.
#[inline(always)]
fn named(task: &TaskName, coming: Coming) -> Result<Option<(TaskName, Coming)>, AllocError>
    ensures { IfOk result (λ found. found ≡ Some (task.now, coming)) }
{
    let name = task.clone()?;
    Ok(Some((name, coming)))
}

/// The least task that can step, with what it does, where none can but those that come after this
/// one. `near` becomes where it was found.
fn coming_behind(
    alloc: Global,
    program: &Program,
    core: &Core,
    near: &mut Option<usize>,
    task: Option<&TaskName>,
) -> Result<Option<(TaskName, Coming)>, AllocError>
    requires fits { Fits program.now core.now.run }
    requires passed { IsPassed program.now (history core.now.run) (option_copied task) }
    ensures { IfOk result (IsLeastComing program.now core.now.run) }
{
    let mut walk = 0;
    let mut after = task;
    'tasks: while let Some(task) = core.walk_unended(&mut walk, near, after) {
        match unended_coming(alloc, program, core, near, task) {
            Ok(Some(coming)) => return named(task, coming),
            Ok(None) => after = Some(task),
            Err(_) => return Err(AllocError),
        }
    }
    Ok(None)
}

/// The least task that can step and that no other seat claims. The search start becomes the least
/// that can step.
pub fn free_task(
    alloc: Global,
    program: &Program,
    core: &Core,
    claims: &Claims,
    floor: &mut Floor,
    seat: u32,
) -> Result<Offer, AllocError>
    requires fits { Fits program.now core.now.run }
    requires floor { IsFloor program.now (history core.now.run) floor.old }
    ensures found { IfOk result (IsFound program.now core.now.run claims.now seat) }
    ensures floor { IsFloor program.now (history core.now.run) floor.new }
{
    let found = match least_coming(alloc, program, core, floor) {
        Ok(Some(found)) => found,
        Ok(None) => return Ok(Offer::Done),
        Err(_) => return Err(AllocError),
    };
    let task = &found.0;
    match claims.held_beside(seat, task) {
        Some(_) => task_behind(alloc, program, core, claims, seat, task),
        None => offer_of(program, core, task),
    }
}

/// Whether the task, which isn't over, can step, and no other seat claims it.
fn can_take(
    alloc: Global,
    program: &Program,
    core: &Core,
    claims: &Claims,
    seat: u32,
    near: &mut Option<usize>,
    task: &TaskName,
) -> Result<bool, AllocError>
    requires fits { Fits program.now core.now.run }
    requires unended { IsTrue (is_unended (history core.now.run) task.now) }
    ensures { IfOk result (λ can. IsTrue can ↔ CanTake program.now (history core.now.run) claims.now seat task.now) }
{
    match unended_coming(alloc, program, core, near, task) {
        Ok(Some(_)) => Ok(claims.held_beside(seat, task).is_none()),
        Ok(None) => Ok(false),
        Err(_) => Err(AllocError),
    }
}

/// The least free task after the least one that can step, which another seat claims.
fn task_behind<'c>(
    alloc: Global,
    program: &Program,
    core: &'c Core,
    claims: &Claims,
    seat: u32,
    first: &'c TaskName,
) -> Result<Offer, AllocError>
    requires fits { Fits program.now core.now.run }
    requires first { least_ready program.now (history core.now.run) ≡ Some first.now }
    requires held { IsFreeBeside claims.now seat first.now → ⊥ }
    ensures { IfOk result (IsFound program.now core.now.run claims.now seat) }
{
    let mut walk = 0;
    let mut near = None;
    let mut after = first;
    'tasks: while let Some(task) = core.walk_unended(&mut walk, &mut near, Some(after)) {
        match can_take(alloc, program, core, claims, seat, &mut near, task) {
            Ok(true) => return offer_of(program, core, task),
            Ok(false) => after = task,
            Err(_) => return Err(AllocError),
        }
    }
    Ok(Offer::Later)
}

/// The task with its statement, as the answer to who asked for one.
fn offer_of(program: &Program, core: &Core, task: &TaskName) -> Result<Offer, AllocError>
    requires fits { Fits program.now core.now.run }
    requires can { IsTrue (can_step program.now (history core.now.run) task.now) }
    ensures { IfOk result (IsOfferOn program.now core.now.run task.now) }
{
    Ok(Offer::Task(situated_of(program, core, task)?))
}
