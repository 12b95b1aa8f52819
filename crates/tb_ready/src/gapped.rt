//! A list of indexes with a gap, where one is put in or taken out at once.

ghost use Rattle.std.specs.Prelude.{◌≡◌, ◌<◌, ◌≤◌, ◌+◌, ◌^◌, [], OnOk, OnErr, length, insert, map, remove, slice_index};
ghost use Rattle.std.specs.VecDeque.{deque_capacity};
ghost use Rattle.tb_ready.specs.Gapped.{joined};
ghost use Rattle.tb_ready.specs.Order.{moved_up};

use std::alloc::{AllocError, Global};
use std::collections::VecDeque;
use std::marker::Model;

/// A list of indexes. One is put in or taken out at the gap; the gap moves there first, over what
/// lies between, which takes no memory.
#[derive(Drop)]
pub(crate) struct Gapped {
    // the indexes after the gap, and then those in front of it
    ring: VecDeque<usize>,
    // how many are after the gap
    behind: usize,
}

impl Model for Gapped {
    ghost use Rattle.std.specs.Prelude.{◌≤◌, length};
    ghost use Rattle.std.specs.VecDeque.{deque_capacity};
    ghost use Rattle.tb_ready.specs.Gapped.{Listed, joined};

    ghost Value = { Listed };

    ghost view = { λ g. record { items = joined g.behind g.ring.items; capacity = deque_capacity g.ring } };

    ghost invariant = { λ g. g.behind ≤ length g.ring.items };
}

impl Gapped {
    /// No index. Takes no memory.
    pub(crate) fn new(alloc: Global) -> Gapped
        ensures { result.items ≡ [] }
    {
        Gapped {
            ring: VecDeque::new(alloc),
            behind: 0,
        }
    }

    /// How many indexes there are.
    #[tactic(auto, using(crate::proofs::GappedLemmas::length_joined))]
    #[inline(always)]
    pub(crate) fn len(&self) -> usize
        ensures len { result ≡ length self.now.items }
        ensures bound { self.now.capacity < 2 ^ 63 }
    {
        self.ring.len()
    }

    /// The kth index, from 0.
    #[inline(always)]
    pub(crate) fn at(&self, k: usize) -> usize
        requires { k < length self.now.items }
        ensures { result ≡ slice_index self.now.items k }
    {
        let ahead = self.ring.len() - self.behind;
        if k < ahead {
            self.ring[self.behind + k]
        } else {
            self.ring[k - ahead]
        }
    }

    /// Reserves the capacity for some more, and changes nothing else.
    #[tactic(auto, using(crate::proofs::GappedLemmas::length_joined))]
    pub(crate) fn reserve(&mut self, additional: usize) -> Result<(), AllocError>
        ensures items { self.new.items ≡ self.old.items }
        ensures capacity { self.old.capacity ≤ self.new.capacity }
        ensures ok { OnOk result (length self.new.items + additional ≤ self.new.capacity) }
        ensures full { OnErr result (self.old.capacity < length self.old.items + additional) }
    {
        if additional <= self.ring.capacity() - self.ring.len() {
            return Ok(());
        }
        // for twice as many: a ring that holds few grows by no more than it is asked for
        self.ring.reserve(additional.saturating_mul(2))
    }

    /// Puts one in at this index, in the capacity that is there.
    #[inline(always)]
    pub(crate) fn insert(&mut self, place: usize, at: usize)
        requires within { place ≤ length self.old.items }
        requires room { length self.old.items < self.old.capacity }
        ensures items { self.new.items ≡ insert self.old.items place at }
        ensures capacity { self.new.capacity ≡ self.old.capacity }
    {
        self.behind = turned(&mut self.ring, self.behind, place);
        self.ring.push_back_reserved(at);
    }

    /// Takes the one at this index out.
    #[inline(always)]
    pub(crate) fn remove(&mut self, place: usize)
        requires { place < length self.old.items }
        ensures items { self.new.items ≡ remove self.old.items place }
        ensures capacity { self.new.capacity ≡ self.old.capacity }
    {
        self.behind = turned(&mut self.ring, self.behind, place) - 1;
        let _at = self.ring.pop_front();
    }

    /// Lowers each that is greater than the one that is gone.
    #[tactic(auto, using(crate::proofs::GappedLemmas::moved))]
    pub(crate) fn move_up(&mut self, gone: usize)
        ensures items { self.new.items ≡ map (moved_up gone) self.old.items }
        ensures capacity { self.new.capacity ≡ self.old.capacity }
    {
        lower_above(&mut self.ring, gone);
    }
}

/// Moves the gap to this index, and returns how many are after it then.
#[inline(always)]
fn turned(ring: &mut VecDeque<usize>, behind: usize, place: usize) -> usize
    requires behind { behind ≤ length ring.old.items }
    requires place { place ≤ length ring.old.items }
    ensures behind { result + place ≡ length ring.old.items }
    ensures len { length ring.new.items ≡ length ring.old.items }
    ensures items { joined result ring.new.items ≡ joined behind ring.old.items }
    ensures capacity { deque_capacity ring.new ≡ deque_capacity ring.old }
{
    let wanted = ring.len() - place;
    if wanted < behind {
        ring.rotate_left(behind - wanted);
    } else if behind < wanted {
        ring.rotate_right(wanted - behind);
    }
    wanted
}

/// Lowers each that is greater than the one that is gone.
fn lower_above(ring: &mut VecDeque<usize>, gone: usize)
    ensures items { ring.new.items ≡ map (moved_up gone) ring.old.items }
    ensures capacity { deque_capacity ring.new ≡ deque_capacity ring.old }
{
    for k in 0..ring.len() {
        if ring[k] > gone {
            ring[k] -= 1;
        }
    }
}
