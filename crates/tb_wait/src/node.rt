//! One task in the tree of tasks.

ghost use Rattle.std.specs.Prelude.{◌≡◌, ◌<◌, ◌≤◌, ◌+◌, ◌-◌, [], ◌∷◌, ◌++◌, OnOk, OnErr, IsOk, length, slice_get};
ghost use Rattle.tb_wait.specs.Numbers.{has, IsPut, IsNextAbove};
ghost use Rattle.tb_wait.specs.Tree.{leaf, is_live};

use crate::children::Children;
use std::alloc::{AllocError, Global};
use std::marker::Model;

/// A task that was ever generated, with what is known of its children.
#[derive(Drop)]
pub struct Node {
    alloc: Global,
    owner: usize,
    number: u32,
    pending: bool,
    // on the heap, and made where the first child is: most tasks generate none
    children: Option<Box<Children>>,
}

impl Model for Node {
    ghost use Rattle.tb_wait.specs.Tree.{Node, children_in};

    ghost Value = { Node };

    ghost view = { λ n. let c = children_in n.children in record { owner = n.owner; number = n.number; pending = n.pending; places = c.places; unended = c.unended; live = c.live; room = c.room } };
}

impl Node {
    /// A task without children.
    pub fn new(alloc: Global, owner: usize, number: u32) -> Node
        ensures { result ≡ leaf owner number }
    {
        Node {
            alloc,
            owner,
            number,
            pending: false,
            children: None,
        }
    }

    /// The index of the parent.
    pub fn owner(&self) -> usize
        ensures { result ≡ self.now.owner }
    {
        self.owner
    }

    /// The ordinal among the parent's children.
    pub fn number(&self) -> u32
        ensures { result ≡ self.now.number }
    {
        self.number
    }

    /// Whether the task is there and hasn't ended.
    pub fn is_pending(&self) -> bool
        ensures { result ≡ self.now.pending }
    {
        self.pending
    }

    /// Whether some task within it is there and hasn't ended.
    pub fn is_live(&self) -> bool
        ensures { result ≡ is_live self.now }
    {
        if self.pending {
            return true;
        }
        match &self.children {
            Some(children) => !children.is_done(),
            None => false,
        }
    }

    /// Sets whether the task is there and hasn't ended.
    pub fn set_pending(&mut self, pending: bool)
        ensures { self.new ≡ record self.old { pending = pending } }
    {
        self.pending = pending;
    }

    /// The index of the child of this ordinal.
    pub fn place(&self, number: u32) -> Option<usize>
        requires { 0 < number }
        ensures { result ≡ slice_get self.now.places (number - 1) }
    {
        match &self.children {
            Some(children) => children.place(number),
            None => None,
        }
    }

    /// How many children were ever generated.
    pub fn len(&self) -> usize
        ensures { result ≡ length self.now.places }
    {
        match &self.children {
            Some(children) => children.len(),
            None => 0,
        }
    }

    /// Reserves capacity for one more child.
    pub fn reserve(&mut self) -> Result<(), AllocError>
        ensures ok { OnOk result (0 < self.new.room) }
        ensures same { self.new ≡ record self.old { room = self.new.room } }
        ensures keeps { self.old.room ≤ self.new.room }
        ensures succeeds { 0 < self.old.room → IsOk result }
    {
        if let Some(children) = &mut self.children {
            return children.reserve();
        }
        let children = Box::new(self.alloc, Children::new(self.alloc))?;
        self.children = Some(children);
        Ok(())
    }

    /// One more child, at this index.
    pub fn push(&mut self, place: usize)
        requires { 0 < self.old.room }
        ensures { self.new ≡ record self.old { places = self.old.places ++ place ∷ []; room = self.old.room - 1 } }
    {
        if let Some(children) = &mut self.children {
            children.push(place);
        }
    }

    /// Sets whether the child of this ordinal hasn't ended.
    pub fn set_unended(&mut self, number: u32, unended: bool)
        requires from_one { 0 < number }
        requires child { number ≤ length self.old.places }
        ensures set { IsPut self.old.unended number unended self.new.unended }
        ensures same { self.new ≡ record self.old { unended = self.new.unended } }
    {
        if let Some(children) = &mut self.children {
            children.set_unended(number, unended);
        }
    }

    /// Sets whether some task within the child of this ordinal hasn't ended.
    pub fn set_live(&mut self, number: u32, live: bool)
        requires from_one { 0 < number }
        requires child { number ≤ length self.old.places }
        ensures set { IsPut self.old.live number live self.new.live }
        ensures same { self.new ≡ record self.old { live = self.new.live } }
    {
        if let Some(children) = &mut self.children {
            children.set_live(number, live);
        }
    }

    /// Whether some task within the child of this ordinal hasn't ended.
    pub fn has_live(&self, number: u32) -> bool
        ensures { result ≡ has self.now.live number }
    {
        match &self.children {
            Some(children) => children.has_live(number),
            None => false,
        }
    }

    /// The least ordinal above `low` of a child that hasn't ended.
    pub fn first_unended(&self, low: u32) -> Option<u32>
        ensures { IsNextAbove self.now.unended low result }
    {
        match &self.children {
            Some(children) => children.first_unended(low),
            None => None,
        }
    }

    /// The least ordinal above `low` of a child within which some task hasn't ended.
    pub fn first_live(&self, low: u32) -> Option<u32>
        ensures { IsNextAbove self.now.live low result }
    {
        match &self.children {
            Some(children) => children.first_live(low),
            None => None,
        }
    }
}
