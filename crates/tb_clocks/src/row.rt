//! What a history says of one task.

ghost use Rattle.std.specs.Prelude.{◌≡◌, ◌<◌, ◌^◌, ◌-◌, OnErr, OnOk, reverse};
ghost use Rattle.tb_clocks.specs.Known.{advanced, child_known, children_with, groups_with, is_undeferred, known};

use crate::group::Group;
use std::alloc::{AllocError, Global};
use tb_model::{Action, Items};

/// What a history says of one task.
#[derive(Drop)]
pub struct Row {
    /// The id of its parent; the root has its own.
    pub parent: usize,
    /// The task's ordinal among its parent's children, from 1; the root has 0.
    pub ordinal: u32,
    /// How many steps it took, and how many children it generated.
    pub steps: u32,
    pub children: u32,
    /// Whether its newest step generated an undeferred child.
    pub held: bool,
    /// The task's depend items.
    pub items: Items,
    /// The groups that it has open, the innermost last.
    pub groups: Vec<Group>,
}

/// Whether the action generates an undeferred child.
fn is_undeferred(action: &Action) -> bool
    ensures { result ≡ is_undeferred action.now }
{
    match action {
        Action::Spawn(spawned) => !spawned.get().deferred,
        _ => false,
    }
}

/// A count of children, with the one that the action generates.
fn children_with(action: &Action, children: u32) -> u32
    requires { children < 2 ^ 32 - 1 }
    ensures { result ≡ children_with action.now children }
{
    match action {
        Action::Spawn(_) => children + 1,
        _ => children,
    }
}

/// Opens a group, or closes the innermost, where the action does that.
fn change_groups(
    groups: &mut Vec<Group>,
    action: &Action,
    at: usize,
    children: u32,
) -> Result<(), AllocError>
    ensures ok { OnOk result (reverse groups.new.items ≡ groups_with action.now at children (reverse groups.old.items)) }
    ensures err { OnErr result (groups.new.items ≡ groups.old.items) }
{
    match action {
        Action::Open => {
            groups.push(Group { at, children })?;
            Ok(())
        }
        Action::Close => {
            let _ = groups.pop();
            Ok(())
        }
        _ => Ok(()),
    }
}

impl Row {
    /// A task that executed no step.
    pub fn new(alloc: Global, parent: usize, ordinal: u32, items: Items) -> Row
        ensures known { known result ≡ child_known items }
        ensures parent { result.parent ≡ parent }
        ensures ordinal { result.ordinal ≡ ordinal }
    {
        Row {
            parent,
            ordinal,
            steps: 0,
            children: 0,
            held: false,
            items,
            groups: Vec::new(alloc),
        }
    }

    /// The task executes this step, which has this index in the history.
    pub fn advance(&mut self, at: usize, action: &Action) -> Result<(), AllocError>
        requires steps { self.old.steps < 2 ^ 32 - 1 }
        requires children { self.old.children < 2 ^ 32 - 1 }
        ensures ok { OnOk result (known self.new ≡ advanced at action.now (known self.old)) }
        ensures parent { self.new.parent ≡ self.old.parent }
        ensures ordinal { self.new.ordinal ≡ self.old.ordinal }
        ensures err { OnErr result (known self.new ≡ known self.old) }
    {
        change_groups(&mut self.groups, action, at, self.children)?;
        self.steps += 1;
        self.children = children_with(action, self.children);
        self.held = is_undeferred(action);
        Ok(())
    }
}
