//! Which groups of a task are open, and who belongs to them, found by scans of the stored steps.

ghost use Rattle.std.specs.Prelude.{◌≡◌, ◌↔◌, ◌≤◌, ◌∷◌, IfOk, IsTrue, List, length};
ghost use Rattle.tb_model.specs.Facts.{own};
ghost use Rattle.tb_model.specs.declared.action.Action.{Action};
ghost use Rattle.tb_model.specs.State.{Faulted, status_of, is_member_of, open_groups_of};
ghost use Rattle.tb_core.specs.Groups.{is_among, makes_member};
ghost use Rattle.tb_steps.specs.Scans.{history_of};

use crate::history::History;
use crate::places::steps_of;
use std::alloc::{AllocError, Global};
use tb_model::{Action, StepId, TaskName};

/// Whether the newest step of the task is a fault.
pub fn newest_is_fault(entries: &History<'_>, t: &TaskName) -> bool
    ensures { IsTrue result ↔ (status_of (own t.now (history_of entries.now)) ≡ Faulted) }
{
    let mut rest = entries.again();
    'back: while let Some((older, task, action)) = rest.split_newest() {
        if *task == *t {
            return is_fault(action);
        }
        rest = older;
    }
    false
}

fn is_fault(action: &Action) -> bool
    ensures { (acts : List Action) → IsTrue result ↔ (status_of (action.now ∷ acts) ≡ Faulted) }
{
    matches!(action, Action::Fault)
}

/// The task's open groups, each by the step that opened it, from the innermost to the outermost.
pub fn open_groups(
    alloc: Global,
    entries: &History<'_>,
    t: &TaskName,
) -> Result<Vec<StepId>, AllocError>
    requires { length entries.now ≤ 1000000 }
    ensures { IfOk result (λ ids. ids.items ≡ open_groups_of t.now (history_of entries.now)) }
{
    let mut ids = Vec::new(alloc);
    let mut left = steps_of(entries, t);
    let mut closed = 0_usize;
    let mut rest = entries.again();
    'back: while let Some((older, task, action)) = rest.split_newest() {
        if *task == *t {
            match action {
                Action::Open => {
                    if closed == 0 {
                        ids.push(step(t, left as u32)?)?;
                    } else {
                        closed -= 1;
                    }
                }
                Action::Close => closed += 1,
                _ => {}
            }
            left -= 1;
        }
        rest = older;
    }
    Ok(ids)
}

/// The kth step of the task.
fn step(task: &TaskName, k: u32) -> Result<StepId, AllocError>
    ensures { IfOk result (λ id. id ≡ record { task = task.now; k = k }) }
{
    Ok(StepId {
        task: task.clone()?,
        k,
    })
}

/// Whether the task is a child of `t`, or a member of its open group of the kth step.
pub fn is_among(entries: &History<'_>, t: &TaskName, group: Option<u32>, u: &TaskName) -> bool
    ensures { result ≡ is_among (own t.now (history_of entries.now)) t.now group u.now }
{
    match group {
        Some(k) => is_member_of(entries, t, k, u),
        None => t.is_parent_of(u),
    }
}

/// Whether the task is a member of the open group of the kth step of `t`.
fn is_member_of(entries: &History<'_>, t: &TaskName, k: u32, m: &TaskName) -> bool
    ensures { result ≡ is_member_of k (own t.now (history_of entries.now)) m.now }
{
    let mut left = steps_of(entries, t);
    let mut rest = entries.again();
    'back: while let Some((older, task, action)) = rest.split_newest() {
        if *task == *t {
            if left <= k as usize {
                return false;
            }
            left -= 1;
            if makes_member(action, m) {
                return true;
            }
        }
        rest = older;
    }
    false
}

/// Whether the action generates the task, or one that the task descends from.
fn makes_member(action: &Action, m: &TaskName) -> bool
    ensures { result ≡ makes_member action.now m.now }
{
    match action {
        Action::Spawn(spawned) => m.is_within(&spawned.get().child),
        _ => false,
    }
}
