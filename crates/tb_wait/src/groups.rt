//! The groups of a task.

ghost use Rattle.std.specs.Prelude.{◌≡◌, ◌≢◌, ◌<◌, ◌≤◌, ◌-◌, ◌+◌, ◌&&◌, [], ◌∷◌, OnOk, IsOk, IfOk, reverse};
ghost use Rattle.std.specs.Box.{box_value};
ghost use Rattle.tb_wait.specs.Kin.{rest_of, moved, first_of, is_none};

use crate::stacks::Stacks;
use crate::stored::Stored;
use std::alloc::{AllocError, Global};
use std::marker::Model;
use std::slice::from_ref;

/// The groups that a task opened, and those of them that it closed: of each, how many children the
/// task had generated when it began. There is capacity for one at least, open or closed.
#[derive(Drop)]
pub(crate) struct Groups {
    alloc: Global,
    stored: Stored,
}

impl Model for Groups {
    ghost use Rattle.tb_wait.specs.Groups.{Groups};
    ghost use Rattle.tb_wait.specs.Stored.{groups_in};

    ghost Value = { Groups };

    ghost view = { λ g. groups_in g.stored };
}

impl Groups {
    /// No group. Takes no memory.
    pub fn new(alloc: Global) -> Groups
        ensures { result ≡ record { groups = []; shut = []; room = 1 } }
    {
        Groups {
            alloc,
            stored: Stored::Nothing,
        }
    }

    /// The open groups, the outermost first.
    pub fn opened(&self) -> &[u32]
        ensures { result.now ≡ reverse self.now.groups }
    {
        match &self.stored {
            Stored::Nothing | Stored::Shut(_) => &[],
            Stored::Open(group) => from_ref(group),
            Stored::Many(stacks) => stacks.opened(),
        }
    }

    /// The innermost open group.
    pub fn innermost(&self) -> Option<u32>
        ensures { result ≡ first_of self.now.groups }
    {
        match &self.stored {
            Stored::Nothing | Stored::Shut(_) => None,
            Stored::Open(group) => Some(*group),
            Stored::Many(stacks) => stacks.innermost(),
        }
    }

    /// Whether there is no group.
    pub fn is_empty(&self) -> bool
        ensures { result ≡ (is_none self.now.groups && is_none self.now.shut) }
    {
        match &self.stored {
            Stored::Nothing => true,
            Stored::Open(_) | Stored::Shut(_) => false,
            Stored::Many(stacks) => stacks.is_empty(),
        }
    }

    /// Reserves capacity for one more group.
    pub fn reserve(&mut self) -> Result<(), AllocError>
        ensures ok { OnOk result (0 < self.new.room) }
        ensures same { self.new ≡ record self.old { room = self.new.room } }
        ensures keeps { self.old.room ≤ self.new.room }
        ensures succeeds { 0 < self.old.room → IsOk result }
    {
        let stacks = match &mut self.stored {
            Stored::Nothing => return Ok(()),
            Stored::Many(stacks) => return stacks.reserve(),
            Stored::Open(group) => with_open(self.alloc, *group)?,
            Stored::Shut(group) => with_shut(self.alloc, *group)?,
        };
        self.stored = Stored::Many(stacks);
        Ok(())
    }

    /// Opens a group in the capacity that is there.
    pub fn push(&mut self, n: u32)
        requires { 0 < self.old.room }
        ensures { self.new ≡ record { groups = n ∷ self.old.groups; shut = self.old.shut; room = self.old.room - 1 } }
    {
        match &mut self.stored {
            Stored::Many(stacks) => stacks.push(n),
            _ => self.stored = Stored::Open(n),
        }
    }

    /// Takes the innermost open group off. Its capacity stays.
    pub fn pop(&mut self)
        ensures groups { self.new.groups ≡ rest_of self.old.groups }
        ensures shut { self.new.shut ≡ self.old.shut }
        ensures keeps { self.old.room ≤ self.new.room }
        ensures room { self.old.groups ≢ [] → self.new.room ≡ self.old.room + 1 }
    {
        match &mut self.stored {
            Stored::Nothing | Stored::Shut(_) => {}
            Stored::Open(_) => self.stored = Stored::Nothing,
            Stored::Many(stacks) => stacks.pop(),
        }
    }

    /// Closes the innermost open group.
    pub fn close(&mut self)
        ensures { self.new ≡ record self.old { groups = rest_of self.old.groups; shut = moved self.old.groups self.old.shut } }
    {
        match &mut self.stored {
            Stored::Nothing | Stored::Shut(_) => {}
            Stored::Open(group) => self.stored = Stored::Shut(*group),
            Stored::Many(stacks) => stacks.close(),
        }
    }

    /// Opens the last closed group again.
    pub fn unclose(&mut self)
        ensures { self.new ≡ record self.old { groups = moved self.old.shut self.old.groups; shut = rest_of self.old.shut } }
    {
        match &mut self.stored {
            Stored::Nothing | Stored::Open(_) => {}
            Stored::Shut(group) => self.stored = Stored::Open(*group),
            Stored::Many(stacks) => stacks.unclose(),
        }
    }
}

/// Stacks on the heap, with this group open.
fn with_open(alloc: Global, group: u32) -> Result<Box<Stacks>, AllocError>
    ensures { IfOk result (λ stacks. box_value stacks ≡ record { groups = group ∷ []; shut = []; room = 3 }) }
{
    let mut stacks = Stacks::new(alloc);
    stacks.push(group);
    Ok(Box::new(alloc, stacks)?)
}

/// Stacks on the heap, with this group closed.
fn with_shut(alloc: Global, group: u32) -> Result<Box<Stacks>, AllocError>
    ensures { IfOk result (λ stacks. box_value stacks ≡ record { groups = []; shut = group ∷ []; room = 3 }) }
{
    let mut stacks = with_open(alloc, group)?;
    stacks.close();
    Ok(stacks)
}
