//! The children of one task in the tree of tasks.

ghost use Rattle.std.specs.Prelude.{◌≡◌, ◌<◌, ◌≤◌, ◌+◌, ◌-◌, [], ◌∷◌, ◌++◌, OnOk, IsOk, length, slice_get};
ghost use Rattle.tb_wait.specs.Numbers.{has, is_empty, IsPut, IsNextAbove};
ghost use Rattle.tb_wait.specs.Tree.{childless};

use crate::numbers::Numbers;
use smallvec::SmallVec;
use std::alloc::{AllocError, Global};
use std::marker::Model;

/// The indexes of a task's children, and which of them haven't ended.
#[derive(Drop)]
pub(crate) struct Children {
    // up to two are here: most tasks that generate any generate few
    places: SmallVec<usize, 2>,
    unended: Numbers,
    live: Numbers,
    room: usize,
}

impl Model for Children {
    ghost use Rattle.std.specs.Prelude.{◌+◌, ◌≤◌, length};
    ghost use Rattle.tb_wait.specs.Tree.{Children};

    ghost Value = { Children };

    ghost view = { λ c. record { places = c.places.items; unended = c.unended.items; live = c.live.items; room = c.room } };

    ghost invariant = { λ c. (length c.places.items + c.room ≤ c.places.capacity)
        × (length c.places.items + c.room ≤ c.unended.bound)
        × (length c.places.items + c.room ≤ c.live.bound) };
}

impl Children {
    /// No children, and capacity for those whose indexes are in it.
    pub(crate) fn new(alloc: Global) -> Children
        ensures { result ≡ record childless { room = 2 } }
    {
        Children {
            places: SmallVec::new(alloc),
            unended: Numbers::new(alloc),
            live: Numbers::new(alloc),
            room: 2,
        }
    }

    /// Whether within none of them a task is there that hasn't ended.
    pub(crate) fn is_done(&self) -> bool
        ensures { result ≡ is_empty self.now.live }
    {
        self.live.is_empty()
    }

    /// The index of the child of this ordinal.
    pub(crate) fn place(&self, number: u32) -> Option<usize>
        requires { 0 < number }
        ensures { result ≡ slice_get self.now.places (number - 1) }
    {
        self.places.as_slice().get((number - 1) as usize).copied()
    }

    /// How many children were ever generated.
    pub(crate) fn len(&self) -> usize
        ensures { result ≡ length self.now.places }
    {
        self.places.len()
    }

    /// Reserves capacity for one more child.
    pub(crate) fn reserve(&mut self) -> Result<(), AllocError>
        ensures ok { OnOk result (0 < self.new.room) }
        ensures same { self.new ≡ record self.old { room = self.new.room } }
        ensures keeps { self.old.room ≤ self.new.room }
        ensures succeeds { 0 < self.old.room → IsOk result }
    {
        if self.room == 0 {
            let len = self.places.as_slice().len() + 1;
            self.unended.reserve(len)?;
            self.live.reserve(len)?;
            self.places.reserve(1)?;
            // for all that there is capacity for, so that mostly the next call has nothing to do
            let bound = self.unended.bound().min(self.live.bound());
            let most = self.places.capacity().min(bound);
            self.room = most.saturating_sub(self.places.len());
        }
        Ok(())
    }

    /// One more child, at this index.
    pub(crate) fn push(&mut self, place: usize)
        requires { 0 < self.old.room }
        ensures { self.new ≡ record self.old { places = self.old.places ++ place ∷ []; room = self.old.room - 1 } }
    {
        self.places.push_reserved(place);
        self.room -= 1;
    }

    /// Sets whether the child of this ordinal hasn't ended.
    pub(crate) fn set_unended(&mut self, number: u32, unended: bool)
        requires from_one { 0 < number }
        requires child { number ≤ length self.old.places }
        ensures set { IsPut self.old.unended number unended self.new.unended }
        ensures same { self.new ≡ record self.old { unended = self.new.unended } }
    {
        self.unended.set(number, unended);
    }

    /// Sets whether some task within the child of this ordinal hasn't ended.
    pub(crate) fn set_live(&mut self, number: u32, live: bool)
        requires from_one { 0 < number }
        requires child { number ≤ length self.old.places }
        ensures set { IsPut self.old.live number live self.new.live }
        ensures same { self.new ≡ record self.old { live = self.new.live } }
    {
        self.live.set(number, live);
    }

    /// Whether some task within the child of this ordinal hasn't ended.
    pub(crate) fn has_live(&self, number: u32) -> bool
        ensures { result ≡ has self.now.live number }
    {
        self.live.has(number)
    }

    /// The least ordinal above `low` of a child that hasn't ended.
    pub(crate) fn first_unended(&self, low: u32) -> Option<u32>
        ensures { IsNextAbove self.now.unended low result }
    {
        self.unended.next_above(low)
    }

    /// The least ordinal above `low` of a child within which some task hasn't ended.
    pub(crate) fn first_live(&self, low: u32) -> Option<u32>
        ensures { IsNextAbove self.now.live low result }
    {
        self.live.next_above(low)
    }
}
