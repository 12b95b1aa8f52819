//! The tree of tasks, whose nodes know of their children.

ghost use Rattle.std.specs.Prelude.{◌≡◌, ◌<◌, ◌≤◌, ◌-◌, ◌↔◌, IsTrue, suc, [], ◌∷◌, ℕ, OnOk, IsOk, IfOk, IfSome, IfNone, length, slice_get, true, false};
ghost use Rattle.std.specs.Option.{option_map_or};
ghost use Rattle.tb_wait.specs.Tree.{node, leaf, IsPlace, SameButRoom, SetsPending, AddsNode};

use crate::node::Node;
use crate::nodes;
use std::alloc::{AllocError, Global};
use std::marker::Model;

/// All tasks that were ever generated, each after its parent. Each node knows which of its children
/// haven't ended, and within which of them some task hasn't.
#[derive(Drop)]
pub(crate) struct Tree {
    pub nodes: Vec<Node>,
}

impl Model for Tree {
    ghost use Rattle.std.specs.Prelude.{◌-◌, vec_len, vec_capacity};
    ghost use Rattle.tb_wait.specs.Tree.{Tree, IsTree};

    ghost Value = { Tree };

    ghost view = { λ t. record { nodes = t.nodes.items; room = vec_capacity t.nodes - vec_len t.nodes } };

    ghost invariant = { λ t. IsTree t.nodes.items };
}

impl Tree {
    /// The root, which is from the beginning.
    pub fn root(alloc: Global) -> Result<Tree, AllocError>
        ensures { IfOk result (λ t. t.nodes ≡ record (leaf 0 0) { pending = true } ∷ []) }
    {
        let mut nodes = Vec::with_capacity(alloc, 1)?;
        let mut node = Node::new(alloc, 0, 0);
        node.set_pending(true);
        nodes.push_reserved(node);
        Ok(Tree { nodes })
    }

    /// The index of the parent, which is in front.
    pub fn owner(&self, at: usize) -> usize
        requires { at < length self.now.nodes }
        ensures owner { result ≡ (node self.now.nodes at).owner }
        ensures before { 0 < at → result < at }
    {
        nodes::shown(&self.nodes, at).owner()
    }

    /// The ordinal among the parent's children.
    pub fn number(&self, at: usize) -> u32
        requires { at < length self.now.nodes }
        ensures { result ≡ (node self.now.nodes at).number }
    {
        nodes::shown(&self.nodes, at).number()
    }

    /// Whether the task at the index ever generated the child of this ordinal.
    pub fn has_child(&self, at: usize, number: u32) -> bool
        requires { at < length self.now.nodes }
        ensures { IsTrue result ↔ ((0 < number) × (number ≤ length (node self.now.nodes at).places)) }
    {
        number > 0 && number as usize <= nodes::shown(&self.nodes, at).len()
    }

    /// The index of the child of this ordinal of the task at the index, where both were ever
    /// generated.
    pub fn child(&self, at: usize, number: u32) -> Option<usize>
        ensures some { IfSome result (λ i. (0 < number) × IsPlace self.now.nodes at (number - 1) i) }
        ensures none { IfNone result ((k i : ℕ) → suc k ≡ number → IsPlace self.now.nodes at k i → ⊥) }
    {
        match self.nodes.as_slice().get(at) {
            Some(node) if number > 0 => node.place(number),
            _ => None,
        }
    }

    /// Whether the child of this ordinal of the task at the index was generated, is there and
    /// hasn't ended.
    pub fn is_child_pending(&self, at: usize, number: u32) -> bool
        requires within { at < length self.now.nodes }
        requires from_one { 0 < number }
        ensures { result ≡ option_map_or (λ i. (node self.now.nodes i).pending) (slice_get (node self.now.nodes at).places (number - 1)) false }
    {
        match nodes::shown(&self.nodes, at).place(number) {
            Some(child) => nodes::shown(&self.nodes, child).is_pending(),
            None => false,
        }
    }

    /// Sets whether the task at the index is there and hasn't ended, and returns all above it. This
    /// goes up the line of owners as far as something changes.
    pub fn set_pending(&mut self, at: usize, pending: bool)
        requires { at < length self.old.nodes }
        ensures set { SetsPending self.old.nodes at pending self.new.nodes }
        ensures room { self.new.room ≡ self.old.room }
    {
        nodes::flag(&mut self.nodes, at, pending);
        nodes::tell_unended(&mut self.nodes, at);
        nodes::refresh(&mut self.nodes, at);
    }

    /// Reserves capacity for one more task, and changes nothing else.
    pub fn reserve(&mut self) -> Result<(), AllocError>
        ensures ok { OnOk result (0 < self.new.room) }
        ensures nodes { self.new.nodes ≡ self.old.nodes }
        ensures keeps { self.old.room ≤ self.new.room }
    {
        self.nodes.reserve(1)
    }

    /// Reserves capacity for one more child of the task at the index.
    pub fn reserve_child(&mut self, at: usize) -> Result<(), AllocError>
        requires { at < length self.old.nodes }
        ensures ok { OnOk result (0 < (node self.new.nodes at).room) }
        ensures same { SameButRoom self.old.nodes self.new.nodes }
        ensures succeeds { 0 < (node self.old.nodes at).room → IsOk result }
        ensures room { self.new.room ≡ self.old.room }
    {
        nodes::reserve_child(&mut self.nodes, at)
    }

    /// One more task, as the last child of the one at `owner`. It isn't there yet.
    pub fn add(&mut self, alloc: Global, owner: usize, number: u32)
        requires within { owner < length self.old.nodes }
        requires child_room { 0 < (node self.old.nodes owner).room }
        requires room { 0 < self.old.room }
        requires number { number ≡ suc (length (node self.old.nodes owner).places) }
        ensures added { AddsNode self.old.nodes owner self.new.nodes }
        ensures room { self.new.room ≡ self.old.room - 1 }
    {
        nodes::push(&mut self.nodes, alloc, owner, number)
    }
}
