//! The first that hasn't ended, among the children of a task or within one.

ghost use Rattle.std.specs.Prelude.{◌≡◌, ◌<◌, List, ℕ, true, length};
ghost use Rattle.tb_model.specs.Names.{Name};
ghost use Rattle.tb_wait.specs.Kin.{Slot};
ghost use Rattle.tb_wait.specs.Rows.{Fits, IsFirstWithin};
ghost use Rattle.tb_wait.specs.Tree.{node, is_live, is_own, KnowsLiveBut, IsFirstPlace, IsNextNumber};

use crate::nodes::shown;
use crate::tree::Tree;

impl Tree {
    /// The index of the first child that hasn't ended.
    pub fn first_unended(&self, at: usize) -> Option<usize>
        requires { at < length self.now.nodes }
        ensures { IsFirstPlace self.now.nodes at 0 is_own result }
    {
        let node = shown(&self.nodes, at);
        match node.first_unended(0) {
            Some(number) => node.place(number),
            None => None,
        }
    }

    /// The least ordinal above `low` of a child that hasn't ended.
    pub fn next_unended(&self, at: usize, low: u32) -> Option<u32>
        requires { at < length self.now.nodes }
        ensures { IsNextNumber self.now.nodes at low is_own result }
    {
        shown(&self.nodes, at).first_unended(low)
    }

    /// The index of the first child above the ordinal within which some task hasn't ended.
    pub fn first_live(&self, at: usize, low: u32) -> Option<usize>
        requires { at < length self.now.nodes }
        ensures first { IsFirstPlace self.now.nodes at low is_live result }
        ensures known { KnowsLiveBut self.now.nodes 0 }
    {
        let node = shown(&self.nodes, at);
        match node.first_live(low) {
            Some(number) => node.place(number),
            None => None,
        }
    }

    /// The index of the least task within the one at `start` that hasn't ended: its own, where it
    /// hasn't, else one within the first child that has one.
    pub fn first_within(&self, start: usize) -> usize
        requires within { start < length self.now.nodes }
        requires live { is_live (node self.now.nodes start) ≡ true }
        ensures within { result < length self.now.nodes }
        ensures pending { (node self.now.nodes result).pending ≡ true }
        ensures first { (names : List Name) (slots : List Slot) → Fits names slots self.now.nodes → IsFirstWithin names self.now.nodes start result }
    {
        let nodes = &self.nodes;
        let mut at = start;
        while !shown(nodes, at).is_pending() {
            match self.first_live(at, 0) {
                Some(child) => at = child,
                None => return at,
            }
        }
        at
    }
}
