//! The nodes of the tree one by one, also while what they know of their children doesn't hold.

ghost use Rattle.std.specs.Prelude.{◌≡◌, ◌≢◌, ◌<◌, ◌≤◌, ℕ, suc, OnOk, IsOk, length, vec_capacity, true, false};
ghost use Rattle.tb_wait.specs.Tree.{node, IsLinked, AreChildren, KnowsLiveBut, KnowsUnendedBut, SameButLive, SameButUnended, SameButPending, SameButRoom, SetsPending, AddsNode};
ghost use Rattle.tb_wait.specs.Numbers.{IsPut};

use crate::node::Node;
use std::alloc::{AllocError, Global};

/// Notes at the owner whether the node is there and hasn't ended.
pub fn tell_unended(nodes: &mut Vec<Node>, at: usize)
    requires linked { IsLinked nodes.old.items }
    requires children { AreChildren nodes.old.items }
    requires within { at < length nodes.old.items }
    requires unended { KnowsUnendedBut nodes.old.items at }
    requires live { KnowsLiveBut nodes.old.items at }
    ensures linked { IsLinked nodes.new.items }
    ensures children { AreChildren nodes.new.items }
    ensures unended { KnowsUnendedBut nodes.new.items 0 }
    ensures live { KnowsLiveBut nodes.new.items at }
    ensures set { SetsPending nodes.old.items at (node nodes.old.items at).pending nodes.new.items }
    ensures capacity { vec_capacity nodes.new ≡ vec_capacity nodes.old }
{
    if at == 0 {
        return;
    }
    let child = shown(nodes, at);
    let (owner, number, pending) = (child.owner(), child.number(), child.is_pending());
    set_unended(nodes, owner, number, pending);
}

/// Notes at the owners upwards whether the node at the index is live.
pub fn refresh(nodes: &mut Vec<Node>, start: usize)
    requires linked { IsLinked nodes.old.items }
    requires children { AreChildren nodes.old.items }
    requires within { start < length nodes.old.items }
    requires live { KnowsLiveBut nodes.old.items start }
    ensures same { SameButLive nodes.old.items nodes.new.items }
    ensures linked { IsLinked nodes.new.items }
    ensures children { AreChildren nodes.new.items }
    ensures live { KnowsLiveBut nodes.new.items 0 }
    ensures capacity { vec_capacity nodes.new ≡ vec_capacity nodes.old }
{
    let mut at = start;
    while at > 0 {
        let owner = shown(nodes, at).owner();
        if !tell_live(nodes, at) {
            return;
        }
        at = owner;
    }
}

// Notes at the owner whether the node is live, and returns whether the owner may be live otherwise
// by that.
fn tell_live(nodes: &mut Vec<Node>, at: usize) -> bool
    requires linked { IsLinked nodes.old.items }
    requires children { AreChildren nodes.old.items }
    requires below { 0 < at }
    requires within { at < length nodes.old.items }
    requires live { KnowsLiveBut nodes.old.items at }
    ensures same { SameButLive nodes.old.items nodes.new.items }
    ensures linked { IsLinked nodes.new.items }
    ensures children { AreChildren nodes.new.items }
    ensures above { result ≡ true → KnowsLiveBut nodes.new.items (node nodes.old.items at).owner }
    ensures done { result ≡ false → KnowsLiveBut nodes.new.items 0 }
    ensures capacity { vec_capacity nodes.new ≡ vec_capacity nodes.old }
{
    let child = shown(nodes, at);
    let (owner, number, live) = (child.owner(), child.number(), child.is_live());
    let above = shown(nodes, owner);
    if above.has_live(number) == live {
        return false;
    }
    // an owner that hasn't ended itself is live whatever its children are
    let settled = above.is_pending();
    set_live(nodes, owner, number, live);
    !settled
}

/// The node at the index.
#[tactic(auto, using(crate::proofs::TreeLemmas::shown))]
pub fn shown(nodes: &Vec<Node>, at: usize) -> &Node
    requires { at < length nodes.now.items }
    ensures { result.now ≡ node nodes.now.items at }
{
    &nodes[at]
}

/// Sets whether the task is there and hasn't ended, and returns nobody.
#[tactic(auto, using(crate::proofs::TreeLemmas::shown))]
pub fn flag(nodes: &mut Vec<Node>, at: usize, pending: bool)
    requires { at < length nodes.old.items }
    ensures set { (node nodes.new.items at).pending ≡ pending }
    ensures same { SameButPending nodes.old.items nodes.new.items }
    ensures others { (i : ℕ) → i ≢ at → (node nodes.new.items i).pending ≡ (node nodes.old.items i).pending }
    ensures capacity { vec_capacity nodes.new ≡ vec_capacity nodes.old }
{
    nodes[at].set_pending(pending);
}

#[tactic(auto, using(crate::proofs::TreeLemmas::shown))]
fn set_unended(nodes: &mut Vec<Node>, at: usize, number: u32, unended: bool)
    requires within { at < length nodes.old.items }
    requires from_one { 0 < number }
    requires child { number ≤ length (node nodes.old.items at).places }
    ensures set { IsPut (node nodes.old.items at).unended number unended (node nodes.new.items at).unended }
    ensures same { SameButUnended nodes.old.items nodes.new.items }
    ensures others { (i : ℕ) → i ≢ at → (node nodes.new.items i).unended ≡ (node nodes.old.items i).unended }
    ensures capacity { vec_capacity nodes.new ≡ vec_capacity nodes.old }
{
    nodes[at].set_unended(number, unended);
}

#[tactic(auto, using(crate::proofs::TreeLemmas::shown))]
fn set_live(nodes: &mut Vec<Node>, at: usize, number: u32, live: bool)
    requires within { at < length nodes.old.items }
    requires from_one { 0 < number }
    requires child { number ≤ length (node nodes.old.items at).places }
    ensures set { IsPut (node nodes.old.items at).live number live (node nodes.new.items at).live }
    ensures same { SameButLive nodes.old.items nodes.new.items }
    ensures others { (i : ℕ) → i ≢ at → (node nodes.new.items i).live ≡ (node nodes.old.items i).live }
    ensures capacity { vec_capacity nodes.new ≡ vec_capacity nodes.old }
{
    nodes[at].set_live(number, live);
}

/// One more node, as the last child of the one at `owner`.
#[tactic(auto, using(crate::proofs::TreeLemmas::shown))]
pub fn push(nodes: &mut Vec<Node>, alloc: Global, owner: usize, number: u32)
    requires within { owner < length nodes.old.items }
    requires room { 0 < (node nodes.old.items owner).room }
    requires spare { length nodes.old.items < vec_capacity nodes.old }
    requires number { number ≡ suc (length (node nodes.old.items owner).places) }
    ensures added { AddsNode nodes.old.items owner nodes.new.items }
    ensures capacity { vec_capacity nodes.new ≡ vec_capacity nodes.old }
{
    let at = nodes.len();
    nodes[owner].push(at);
    nodes.push_reserved(Node::new(alloc, owner, number));
}

/// Reserves capacity for one more child of the node.
#[tactic(auto, using(crate::proofs::TreeLemmas::shown))]
pub fn reserve_child(nodes: &mut Vec<Node>, at: usize) -> Result<(), AllocError>
    requires within { at < length nodes.old.items }
    ensures ok { OnOk result (0 < (node nodes.new.items at).room) }
    ensures same { SameButRoom nodes.old.items nodes.new.items }
    ensures succeeds { 0 < (node nodes.old.items at).room → IsOk result }
    ensures capacity { vec_capacity nodes.new ≡ vec_capacity nodes.old }
{
    nodes[at].reserve()
}
