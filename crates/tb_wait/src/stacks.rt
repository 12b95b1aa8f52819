//! The groups of a task that began more than one.

ghost use Rattle.std.specs.Prelude.{◌≡◌, ◌≢◌, ◌<◌, ◌≤◌, ◌-◌, ◌+◌, ◌&&◌, [], ◌∷◌, OnOk, IsOk, reverse};
ghost use Rattle.tb_wait.specs.Kin.{rest_of, moved, first_of, is_none};

use smallvec::SmallVec;
use std::alloc::{AllocError, Global};
use std::marker::Model;

/// The open groups and the closed ones. In each there is capacity for all of both.
#[derive(Drop)]
pub(crate) struct Stacks {
    groups: SmallVec<u32, 4>,
    shut: SmallVec<u32, 4>,
    room: usize,
}

impl Model for Stacks {
    ghost use Rattle.std.specs.Prelude.{◌≤◌, ◌+◌, reverse};
    ghost use Rattle.smallvec.specs.SmallVec.{small_vec_len};
    ghost use Rattle.tb_wait.specs.Groups.{Groups};

    ghost Value = { Groups };

    ghost view = { λ s. record { groups = reverse s.groups.items; shut = reverse s.shut.items; room = s.room } };

    ghost invariant = { λ s. (small_vec_len s.groups + small_vec_len s.shut + s.room ≤ s.groups.capacity)
        × (small_vec_len s.groups + small_vec_len s.shut + s.room ≤ s.shut.capacity) };
}

impl Stacks {
    /// No group, and capacity for four.
    pub fn new(alloc: Global) -> Stacks
        ensures { result ≡ record { groups = []; shut = []; room = 4 } }
    {
        Stacks {
            groups: SmallVec::new(alloc),
            shut: SmallVec::new(alloc),
            room: 4,
        }
    }

    /// The open groups, the outermost first.
    pub fn opened(&self) -> &[u32]
        ensures { result.now ≡ reverse self.now.groups }
    {
        self.groups.as_slice()
    }

    /// The innermost open group.
    pub fn innermost(&self) -> Option<u32>
        ensures { result ≡ first_of self.now.groups }
    {
        self.groups.as_slice().last().copied()
    }

    /// Whether there is no group.
    #[tactic(auto, using(crate::proofs::RowLemmas::is_none_reverse))]
    pub fn is_empty(&self) -> bool
        ensures { result ≡ (is_none self.now.groups && is_none self.now.shut) }
    {
        self.groups.is_empty() && self.shut.is_empty()
    }

    /// Reserves capacity for one more group.
    pub fn reserve(&mut self) -> Result<(), AllocError>
        ensures ok { OnOk result (0 < self.new.room) }
        ensures same { self.new ≡ record self.old { room = self.new.room } }
        ensures keeps { self.old.room ≤ self.new.room }
        ensures succeeds { 0 < self.old.room → IsOk result }
    {
        if self.room == 0 {
            let shut = self.shut.len().checked_add(1).ok_or(AllocError)?;
            let open = self.groups.len().checked_add(1).ok_or(AllocError)?;
            self.groups.reserve(shut)?;
            self.shut.reserve(open)?;
            self.room = 1;
        }
        Ok(())
    }

    /// Opens a group in the capacity that is there.
    pub fn push(&mut self, n: u32)
        requires { 0 < self.old.room }
        ensures { self.new ≡ record { groups = n ∷ self.old.groups; shut = self.old.shut; room = self.old.room - 1 } }
    {
        self.groups.push_reserved(n);
        self.room -= 1;
    }

    /// Takes the innermost open group off. Its capacity stays.
    pub fn pop(&mut self)
        ensures groups { self.new.groups ≡ rest_of self.old.groups }
        ensures shut { self.new.shut ≡ self.old.shut }
        ensures keeps { self.old.room ≤ self.new.room }
        ensures room { self.old.groups ≢ [] → self.new.room ≡ self.old.room + 1 }
    {
        // for the proof: a bound of the capacity
        let _places = self.groups.capacity();
        if self.groups.pop().is_some() {
            self.room += 1;
        }
    }

    /// Closes the innermost open group.
    pub fn close(&mut self)
        ensures { self.new ≡ record self.old { groups = rest_of self.old.groups; shut = moved self.old.groups self.old.shut } }
    {
        if let Some(group) = self.groups.pop() {
            self.shut.push_reserved(group);
        }
    }

    /// Opens the last closed group again.
    pub fn unclose(&mut self)
        ensures { self.new ≡ record self.old { groups = moved self.old.shut self.old.groups; shut = rest_of self.old.shut } }
    {
        if let Some(group) = self.shut.pop() {
            self.groups.push_reserved(group);
        }
    }
}
