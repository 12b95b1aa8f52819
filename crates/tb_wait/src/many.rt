//! A set of ordinals, of which there may be many.

ghost use Rattle.std.specs.Prelude.{◌≡◌, ◌<◌, ◌≤◌, [], OnOk, OnErr, IsOk, true, false, length, ℕ, slice_index_or};
ghost use Rattle.tb_wait.specs.Numbers.{has, is_empty, IsPut, IsNextAbove, Rises, below};

use std::alloc::{AllocError, Global};
use std::collections::VecDeque;
use std::marker::Model;

/// A set of ordinals from 1 on, in rising order. A search halves it, and a change moves the shorter
/// side.
#[derive(Drop)]
pub struct Many {
    items: VecDeque<u32>,
    bound: usize,
}

impl Model for Many {
    ghost use Rattle.std.specs.Prelude.{◌≤◌};
    ghost use Rattle.std.specs.VecDeque.{deque_capacity};
    ghost use Rattle.tb_wait.specs.Numbers.{Numbers, Rises};

    ghost Value = { Numbers };

    ghost view = { λ s. record { items = s.items.items; bound = s.bound } };

    ghost invariant = { λ s. Rises 0 s.items.items s.bound × (s.bound ≤ deque_capacity s.items) };
}

impl Many {
    /// No ordinal.
    pub fn new(alloc: Global) -> Many
        ensures items { result.items ≡ [] }
        ensures bound { result.bound ≡ 0 }
    {
        Many {
            items: VecDeque::new(alloc),
            bound: 0,
        }
    }

    /// Reserves capacity for each ordinal up to the bound.
    pub fn reserve(&mut self, bound: usize) -> Result<(), AllocError>
        ensures ok { OnOk result (bound ≤ self.new.bound) }
        ensures items { self.new.items ≡ self.old.items }
        ensures keeps { self.old.bound ≤ self.new.bound }
        ensures succeeds { bound ≤ self.old.bound → IsOk result }
    {
        if bound > self.bound {
            let len = self.items.len();
            // for twice as many: a deque that holds few grows by no more than it is asked for
            let more = bound.saturating_sub(len);
            self.items.reserve(more.saturating_mul(2))?;
            // for all that there is capacity for, so that mostly the next call has nothing to do
            self.bound = self.items.capacity();
        }
        Ok(())
    }

    /// Up to which ordinal each has capacity.
    pub fn bound(&self) -> usize
        ensures { result ≡ self.now.bound }
    {
        self.bound
    }

    /// Whether there is no ordinal.
    pub fn is_empty(&self) -> bool
        ensures { result ≡ is_empty self.now.items }
    {
        self.items.is_empty()
    }

    /// Whether the ordinal is there.
    pub fn has(&self, n: u32) -> bool
        ensures { result ≡ has self.now.items n }
    {
        self.find(n).1
    }

    /// How many ordinals are below n, and whether it is there itself.
    #[inline]
    fn find(&self, n: u32) -> (usize, bool)
        ensures place { result.0 ≡ below n self.now.items }
        ensures within { result.0 ≤ length self.now.items }
        ensures there { result.1 ≡ has self.now.items n }
    {
        let at = gap(&self.items, n as u64);
        let there = at < self.items.len() && number_at(&self.items, at) == n;
        (at, there)
    }

    /// Puts the ordinal in or takes it out.
    pub fn set(&mut self, n: u32, there: bool)
        requires from_one { 0 < n }
        requires room { n ≤ self.old.bound }
        ensures set { IsPut self.old.items n there self.new.items }
        ensures bound { self.new.bound ≡ self.old.bound }
    {
        if there { self.add(n) } else { self.remove(n) }
    }

    fn add(&mut self, n: u32)
        requires from_one { 0 < n }
        requires room { n ≤ self.old.bound }
        ensures set { IsPut self.old.items n true self.new.items }
        ensures bound { self.new.bound ≡ self.old.bound }
    {
        let (at, there) = self.find(n);
        if there {
            return;
        }
        if at == self.items.len() {
            self.items.push_back_reserved(n);
        } else {
            self.items.insert(at, n).unwrap();
        }
    }

    fn remove(&mut self, n: u32)
        ensures set { IsPut self.old.items n false self.new.items }
        ensures bound { self.new.bound ≡ self.old.bound }
    {
        let (at, there) = self.find(n);
        if !there {
            return;
        }
        if at == 0 {
            let _n = self.items.pop_front();
        } else {
            let _n = self.items.remove(at);
        }
    }

    /// The least ordinal above `low`.
    pub fn next_above(&self, low: u32) -> Option<u32>
        ensures { IsNextAbove self.now.items low result }
    {
        let at = gap(&self.items, low as u64 + 1);
        if at < self.items.len() {
            Some(number_at(&self.items, at))
        } else {
            None
        }
    }
}

// How many ordinals in front are below n.
#[inline]
fn gap(items: &VecDeque<u32>, n: u64) -> usize
    requires { (high : ℕ) × Rises 0 items.now.items high }
    ensures gap { result ≡ below n items.now.items }
    ensures within { result ≤ length items.now.items }
{
    let mut low = 0;
    let mut high = items.len();
    let mut round: u8 = 0;
    while low < high {
        let middle = probe(low, high, round);
        round = round.saturating_add(1);
        if (number_at(items, middle) as u64) < n {
            low = middle + 1;
        } else {
            high = middle;
        }
    }
    low
}

// Which index between these is looked at in this round of a search: the last one and the first come
// before the halves, since mostly the ordinal goes to an end.
fn probe(low: usize, high: usize, round: u8) -> usize
    requires { low < high }
    ensures from { low ≤ result }
    ensures below { result < high }
{
    match round {
        0 => high - 1,
        1 => low,
        _ => low + (high - low) / 2,
    }
}

fn number_at(items: &VecDeque<u32>, at: usize) -> u32
    requires { at < length items.now.items }
    ensures { result ≡ slice_index_or items.now.items at 0 }
{
    items[at]
}
