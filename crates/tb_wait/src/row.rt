//! What is stored of one task.

ghost use Rattle.std.specs.Prelude.{◌≡◌, ◌≢◌, ◌<◌, ◌≤◌, ◌-◌, ◌+◌, [], OnOk, OnErr, IsOk, Some, None, is_some, reverse};
ghost use Rattle.tb_wait.specs.Rows.{blank, is_pending, children_of, groups_of};
ghost use Rattle.std.specs.Option.{option_map};
ghost use Rattle.tb_wait.specs.Kin.{fresh, with_over, with_children, opened_kin, unopened_kin, closed_kin, unclosed_kin, first_of, is_fresh, Kin};

use crate::groups::Groups;
use std::alloc::{AllocError, Global};
use std::marker::Model;

/// A task that was ever generated. While it isn't there, it is as a fresh one.
#[derive(Drop)]
pub struct Row {
    stands: bool,
    over: bool,
    children: u32,
    groups: Groups,
    child_room: usize,
}

impl Model for Row {
    ghost use Rattle.std.specs.Prelude.{◌≡◌, [], false};
    ghost use Rattle.tb_wait.specs.Kin.{Slot};
    ghost use Rattle.tb_wait.specs.Rows.{kin_if};

    ghost Value = { Slot };

    ghost view = { λ r. record {
      kin = kin_if r.stands (record { over = r.over; children = r.children; groups = r.groups.groups; shut = r.groups.shut });
      child_room = r.child_room;
      group_room = r.groups.room;
    } };

    ghost invariant = { λ r. r.stands ≡ false → (r.over ≡ false) × (r.children ≡ 0) × (r.groups.groups ≡ []) × (r.groups.shut ≡ []) };
}

impl Row {
    /// The row of a task that isn't there. Takes no memory.
    pub fn new(alloc: Global) -> Row
        ensures { result ≡ blank }
    {
        Row {
            stands: false,
            over: false,
            children: 0,
            groups: Groups::new(alloc),
            child_room: 0,
        }
    }

    /// Whether the task is there: it was generated, and that isn't taken back.
    pub fn stands(&self) -> bool
        ensures { result ≡ is_some self.now.kin }
    {
        self.stands
    }

    /// Whether it is there and isn't over.
    pub fn is_pending(&self) -> bool
        ensures { result ≡ is_pending self.now.kin }
    {
        self.stands && !self.over
    }

    /// The ordinal of its last child.
    pub fn children(&self) -> u32
        ensures { result ≡ children_of self.now.kin }
    {
        self.children
    }

    /// What that ordinal was at the beginning of each open group, the outermost first.
    pub fn groups(&self) -> &[u32]
        ensures { result.now ≡ reverse (groups_of self.now.kin) }
    {
        self.groups.opened()
    }

    /// What that ordinal was at the beginning of the innermost open group.
    pub fn innermost(&self) -> Option<u32>
        ensures { result ≡ first_of (groups_of self.now.kin) }
    {
        self.groups.innermost()
    }

    /// Whether it is there, and nothing is stored of it yet.
    pub fn is_fresh(&self) -> bool
        ensures { result ≡ is_fresh self.now.kin }
    {
        self.stands && !self.over && self.children == 0 && self.groups.is_empty()
    }

    /// Whether it is over, where it is.
    pub fn is_over(&self) -> Option<bool>
        ensures { result ≡ option_map (λ (k : Kin). k.over) self.now.kin }
    {
        self.stands.then_some(self.over)
    }

    /// The task is from now on.
    pub fn appear(&mut self)
        requires { self.old.kin ≡ None }
        ensures { self.new ≡ record self.old { kin = Some fresh } }
    {
        self.stands = true;
    }

    /// The task is no longer there. It is as it was when it came.
    pub fn vanish(&mut self)
        requires { self.old.kin ≡ Some fresh }
        ensures { self.new ≡ record self.old { kin = None } }
    {
        self.stands = false;
    }

    /// Sets whether it is over.
    pub fn set_over(&mut self, over: bool)
        ensures { self.new ≡ record self.old { kin = option_map (with_over over) self.old.kin } }
    {
        if self.stands {
            self.over = over;
        }
    }

    /// Sets the ordinal of its last child.
    pub fn set_children(&mut self, n: u32)
        ensures { self.new ≡ record self.old { kin = option_map (with_children n) self.old.kin } }
    {
        if self.stands {
            self.children = n;
        }
    }

    /// How many more children fit with no memory.
    pub fn child_room(&self) -> usize
        ensures { result ≡ self.now.child_room }
    {
        self.child_room
    }

    /// Sets how many more children fit with no memory.
    pub fn set_child_room(&mut self, room: usize)
        ensures { self.new ≡ record self.old { child_room = room } }
    {
        self.child_room = room;
    }

    /// Reserves capacity for one more group.
    pub fn reserve_group(&mut self) -> Result<(), AllocError>
        ensures ok { OnOk result (0 < self.new.group_room) }
        ensures same { self.new ≡ record self.old { group_room = self.new.group_room } }
        ensures keeps { self.old.group_room ≤ self.new.group_room }
        ensures succeeds { 0 < self.old.group_room → IsOk result }
    {
        self.groups.reserve()
    }

    /// Opens a group.
    fn open(&mut self)
        requires { 0 < self.old.group_room }
        ensures kin { self.new.kin ≡ option_map opened_kin self.old.kin }
        ensures child_room { self.new.child_room ≡ self.old.child_room }
    {
        if self.stands {
            self.groups.push(self.children);
        }
    }

    /// Opens a group, and reserves the capacity for it where there is none.
    pub fn open_reserving(&mut self) -> Result<(), AllocError>
        ensures ok { OnOk result (self.new.kin ≡ option_map opened_kin self.old.kin) }
        ensures err { OnErr result (self.new.kin ≡ self.old.kin) }
        ensures child_room { self.new.child_room ≡ self.old.child_room }
        ensures succeeds { 0 < self.old.group_room → IsOk result }
    {
        self.reserve_group()?;
        self.open();
        Ok(())
    }

    /// Takes the innermost group off.
    pub fn unopen(&mut self)
        ensures kin { self.new.kin ≡ option_map unopened_kin self.old.kin }
        ensures child_room { self.new.child_room ≡ self.old.child_room }
        ensures keeps { self.old.group_room ≤ self.new.group_room }
        ensures group_room { groups_of self.old.kin ≢ [] → self.new.group_room ≡ self.old.group_room + 1 }
    {
        self.groups.pop();
    }

    /// Closes the innermost group.
    pub fn close(&mut self)
        ensures { self.new ≡ record self.old { kin = option_map closed_kin self.old.kin } }
    {
        self.groups.close();
    }

    /// Opens the last closed group again.
    pub fn unclose(&mut self)
        ensures { self.new ≡ record self.old { kin = option_map unclosed_kin self.old.kin } }
    {
        self.groups.unclose();
    }
}
