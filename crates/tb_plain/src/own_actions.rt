//! What the actions of a task, the newest first, say of its groups and its undeferred child.

ghost use Rattle.std.specs.Prelude.{◌≡◌, ◌≤◌, ◌∷◌, IfOk, length, map};
ghost use Rattle.std.specs.List.{list_any};
ghost use Rattle.tb_model.specs.Facts;
ghost use Rattle.tb_model.specs.Legal;
ghost use Rattle.tb_model.specs.Names.{is_within};
ghost use Rattle.tb_model.specs.State;

use crate::names::Names;
use std::alloc::{AllocError, Global};
use tb_model::{Action, TaskName};

/// For each open group, the innermost first, the children that were generated in it.
pub fn groups(alloc: Global, acts: &[Action]) -> Result<Vec<Names>, AllocError>
    ensures { IfOk result (λ all. all.items ≡ Facts.groups acts.now) }
{
    match acts {
        [] => Ok(Vec::new(alloc)),
        [newest, front @ ..] => {
            let mut all = groups(alloc, front)?;
            match newest {
                Action::Open => {
                    all.insert(0, Names::new(alloc))?;
                    Ok(all)
                }
                Action::Close => {
                    if !all.is_empty() {
                        let _ = all.remove(0);
                    }
                    Ok(all)
                }
                Action::Spawn(spawned) => with_child(alloc, all.as_slice(), &spawned.get().child),
                _ => Ok(all),
            }
        }
    }
}

/// The groups, each with the child in front.
fn with_child(alloc: Global, groups: &[Names], child: &TaskName) -> Result<Vec<Names>, AllocError>
    ensures { IfOk result (λ all. all.items ≡ map (λ us. child.now ∷ us) groups.now) }
{
    let mut all = Vec::new(alloc);
    'each: for group in groups {
        let mut more = group.clone()?;
        more.push_front(child.clone()?)?;
        all.push(more)?;
    }
    Ok(all)
}

/// Whether `m` is one of these children or a descendant of one.
fn is_below(children: &[TaskName], m: &TaskName) -> bool
    ensures { result ≡ list_any (λ c. is_within c m.now) children.now }
{
    children.iter().any(|child| m.is_within(child))
}

/// Whether `m` is a member of the innermost open group.
pub fn is_member(alloc: Global, acts: &[Action], m: &TaskName) -> Result<bool, AllocError>
    ensures { IfOk result (λ yes. yes ≡ Facts.is_member acts.now m.now) }
{
    let all = groups(alloc, acts)?;
    match all.as_slice() {
        [] => Ok(false),
        [innermost, ..] => Ok(is_below(innermost.as_slice(), m)),
    }
}

/// The open groups, the innermost first, each by the ordinal of the step that opened it.
pub fn open_groups(alloc: Global, acts: &[Action]) -> Result<Vec<usize>, AllocError>
    ensures { IfOk result (λ opened. opened.items ≡ State.open_groups acts.now) }
{
    match acts {
        [] => Ok(Vec::new(alloc)),
        [newest, front @ ..] => {
            let mut opened = open_groups(alloc, front)?;
            match newest {
                Action::Open => opened.insert(0, acts.len())?,
                Action::Close => {
                    if !opened.is_empty() {
                        let _ = opened.remove(0);
                    }
                }
                _ => {}
            }
            Ok(opened)
        }
    }
}

/// The children that the actions after the kth generated, the newest first.
pub fn children_since(alloc: Global, k: usize, acts: &[Action]) -> Result<Names, AllocError>
    ensures { IfOk result (λ children. children ≡ State.children_since k acts.now) }
{
    match acts {
        [] => Ok(Names::new(alloc)),
        [newest, front @ ..] => {
            if k > front.len() {
                return Ok(Names::new(alloc));
            }
            let mut children = children_since(alloc, k, front)?;
            match newest {
                Action::Spawn(spawned) => children.push_front(spawned.get().child.clone()?)?,
                _ => {}
            }
            Ok(children)
        }
    }
}

/// Whether `m` is a member of the open group of the kth step.
pub fn is_member_of(
    alloc: Global,
    k: usize,
    acts: &[Action],
    m: &TaskName,
) -> Result<bool, AllocError>
    ensures { IfOk result (λ yes. yes ≡ State.is_member_of k acts.now m.now) }
{
    Ok(is_below(children_since(alloc, k, acts)?.as_slice(), m))
}

/// Whether the newest action generated the undeferred child `u`.
pub fn holds(acts: &[Action], u: &TaskName) -> bool
    ensures { result ≡ Facts.holds acts.now u.now }
{
    match acts {
        [] => false,
        [newest, ..] => match newest {
            Action::Spawn(spawned) => {
                let spawn = spawned.get();
                !spawn.deferred && spawn.child == *u
            }
            _ => false,
        },
    }
}

/// How many children the actions generated.
pub fn spawn_count(acts: &[Action]) -> usize
    ensures count { result ≡ Legal.spawn_count acts.now }
    ensures within { result ≤ length acts.now }
{
    match acts {
        [] => 0,
        [newest, front @ ..] => {
            let count = spawn_count(front);
            match newest {
                Action::Spawn(_) => count + 1,
                _ => count,
            }
        }
    }
}
