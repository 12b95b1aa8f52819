//! A set of ordinals.

ghost use Rattle.std.specs.Prelude.{◌≡◌, ◌<◌, ◌≤◌, [], OnOk, IsOk};
ghost use Rattle.tb_wait.specs.Numbers.{has, is_empty, IsPut, IsNextAbove};

use crate::few::Few;
use crate::many::Many;
use std::alloc::{AllocError, Global};
use std::marker::Model;

/// A set of ordinals from 1 on. Those below 64 are in it as bits.
#[derive(Drop)]
pub struct Numbers {
    alloc: Global,
    few: Few,
    // the ordinals from 64 on, made where there is to be capacity for one: most tasks have fewer
    // children
    many: Option<Box<Many>>,
}

impl Model for Numbers {
    ghost use Rattle.std.specs.Prelude.{◌++◌, max};
    ghost use Rattle.tb_wait.specs.Numbers.{Numbers, many_in, AreFrom};
    ghost use Rattle.tb_wait.specs.Few.{held};

    ghost Value = { Numbers };

    ghost view = { λ s. record { items = held s.few.bits ++ (many_in s.many).items; bound = max 63 (many_in s.many).bound } };

    ghost invariant = { λ s. AreFrom 64 (many_in s.many).items };
}

impl Numbers {
    /// No ordinal.
    pub fn new(alloc: Global) -> Numbers
        ensures items { result.items ≡ [] }
        ensures bound { result.bound ≡ 63 }
    {
        Numbers {
            alloc,
            few: Few::new(),
            many: None,
        }
    }

    /// Reserves capacity for each ordinal up to the bound.
    #[inline]
    pub fn reserve(&mut self, bound: usize) -> Result<(), AllocError>
        ensures ok { OnOk result (bound ≤ self.new.bound) }
        ensures items { self.new.items ≡ self.old.items }
        ensures keeps { self.old.bound ≤ self.new.bound }
        ensures succeeds { bound ≤ self.old.bound → IsOk result }
    {
        match &mut self.many {
            _ if bound < 64 => Ok(()),
            Some(many) => many.reserve(bound),
            None => {
                let mut many = Box::new(self.alloc, Many::new(self.alloc))?;
                many.reserve(bound)?;
                self.many = Some(many);
                Ok(())
            }
        }
    }

    /// Up to which ordinal each has capacity.
    pub fn bound(&self) -> usize
        ensures { result ≡ self.now.bound }
    {
        let many = match &self.many {
            Some(many) => many.bound(),
            None => 0,
        };
        many.max(63)
    }

    /// Whether there is no ordinal.
    #[inline]
    pub fn is_empty(&self) -> bool
        ensures { result ≡ is_empty self.now.items }
    {
        let none = match &self.many {
            Some(many) => many.is_empty(),
            None => true,
        };
        self.few.is_empty() && none
    }

    /// Whether the ordinal is there.
    #[inline]
    pub fn has(&self, n: u32) -> bool
        ensures { result ≡ has self.now.items n }
    {
        if n < 64 {
            return self.few.has(n);
        }
        match &self.many {
            Some(many) => many.has(n),
            None => false,
        }
    }

    /// Puts the ordinal in or takes it out.
    #[inline]
    pub fn set(&mut self, n: u32, there: bool)
        requires from_one { 0 < n }
        requires room { n ≤ self.old.bound }
        ensures set { IsPut self.old.items n there self.new.items }
        ensures bound { self.new.bound ≡ self.old.bound }
    {
        if n < 64 {
            self.few.set(n, there);
        } else if let Some(many) = &mut self.many {
            many.set(n, there);
        }
    }

    /// The least ordinal above `low`.
    #[inline]
    pub fn next_above(&self, low: u32) -> Option<u32>
        ensures { IsNextAbove self.now.items low result }
    {
        if let Some(n) = self.few.next_above(low) {
            return Some(n);
        }
        match &self.many {
            Some(many) => many.next_above(low),
            None => None,
        }
    }
}
