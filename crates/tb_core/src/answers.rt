//! What a refusal names.

ghost use Rattle.std.specs.Prelude.{◌≡◌, ◌<◌, ◌↔◌, IfOk, IsErr, IsTrue};
ghost use Rattle.tb_undo.specs.Obstacles.{hindrance_by, sibling};
ghost use Rattle.tb_core.specs.Naming.{config_with, IsLongName, IsStaleAnswer, IsNamed, IsNumbered};

use crate::elsewhere::Elsewhere;
use crate::step_refusal::StepRefusal;
use std::alloc::{AllocError, Global};
use tb_model::TaskName;
use tb_plan::Config;
use tb_undo::{Obstacle, Standing};

/// The configuration of a task by its situation.
pub fn config(task: TaskName, standing: &Standing<'_>) -> Config
    ensures { result ≡ config_with task standing.now }
{
    let regs = *standing.regs();
    Config {
        task,
        steps: standing.steps(),
        at: standing.at(),
        regs,
    }
}

/// Whether the configuration is that of its task with this situation.
pub fn stands_so(config: &Config, standing: &Standing<'_>) -> bool
    ensures { IsTrue result ↔ (config.now ≡ config_with config.now.task standing.now) }
{
    config.steps == standing.steps()
        && config.at == standing.at()
        && are_same(&config.regs, standing.regs())
}

fn are_same(a: &[i64; 16], b: &[i64; 16]) -> bool
    ensures { IsTrue result ↔ (a.now ≡ b.now) }
{
    a == b
}

/// The refusal of a plan that isn't for this situation, in which the task is now. For want of
/// memory that is refused instead.
pub fn stale(alloc: Global, task: &TaskName, standing: &Standing<'_>) -> StepRefusal
    ensures { IsStaleAnswer (config_with task.now standing.now) result }
{
    match elsewhere(alloc, task, standing) {
        Ok(now) => StepRefusal::Stale { now },
        Err(_) => StepRefusal::Memory,
    }
}

/// Where a task is, on the heap.
fn elsewhere(
    alloc: Global,
    task: &TaskName,
    standing: &Standing<'_>,
) -> Result<Elsewhere, AllocError>
    ensures { IfOk result (λ now. now ≡ config_with task.now standing.now) }
{
    Elsewhere::new(alloc, config(task.clone()?, standing))
}

/// What blocks the task's action, by name. Memory is wanted at most for a name of more than three
/// ordinals.
pub fn named(task: &TaskName, obstacle: Obstacle<'_>) -> StepRefusal
    requires { IsNumbered obstacle }
    ensures { IsNamed (hindrance_by task.now obstacle.entry) result }
{
    match obstacle {
        Obstacle::Undeferred { child } => match task.child(child) {
            Ok(child) => StepRefusal::Undeferred { child },
            Err(_) => StepRefusal::Memory,
        },
        Obstacle::Waiting { sibling } => match sibling_of(task, sibling) {
            Ok(pred) => StepRefusal::Waiting { pred },
            Err(_) => StepRefusal::Memory,
        },
        Obstacle::Excluded { sibling } => match sibling_of(task, sibling) {
            Ok(by) => StepRefusal::Excluded { by },
            Err(_) => StepRefusal::Memory,
        },
        Obstacle::Children { child } => match task.child(child) {
            Ok(first) => StepRefusal::Children { first },
            Err(_) => StepRefusal::Memory,
        },
        Obstacle::Group { member } => match member.clone() {
            Ok(first) => StepRefusal::Group { first },
            Err(_) => StepRefusal::Memory,
        },
    }
}

/// The child of the task's parent with this ordinal.
fn sibling_of(task: &TaskName, number: u32) -> Result<TaskName, AllocError>
    requires { 0 < number }
    ensures name { IfOk result (λ name. name ≡ sibling task.now number) }
    ensures long { IsErr result → IsLongName (sibling task.now number) }
{
    match task.parent()? {
        Some(parent) => parent.child(number),
        None => task.child(number),
    }
}
