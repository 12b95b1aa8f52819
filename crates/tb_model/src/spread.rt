//! Ordinals that are in a name itself, as they are lent.

ghost use Rattle.std.specs.Prelude.{◌≡◌, ◌≤◌, ◌<◌, drop, length, take};

use crate::few::FEW;
use std::marker::Model;

/// Up to fourteen ordinals, four bytes each.
#[derive(Drop)]
pub(crate) struct Spread {
    numbers: [u32; FEW],
    from: usize,
    to: usize,
}

impl Model for Spread {
    ghost use Rattle.std.specs.Prelude.{◌≤◌, ◌-◌, List, ℕ, drop, take};

    ghost Value = { List ℕ };

    ghost view = { λ s. take (s.to - s.from) (drop s.from s.numbers) };

    ghost invariant = { λ s. (s.from ≤ s.to) × (s.to ≤ 14) };
}

impl Spread {
    /// The first so many of the ordinals.
    #[inline(always)]
    pub fn new(numbers: [u32; FEW], count: usize) -> Spread
        requires { count ≤ 14 }
        ensures { result ≡ take count numbers }
    {
        Spread {
            numbers,
            from: 0,
            to: count,
        }
    }

    /// The ordinals.
    #[inline(always)]
    pub fn as_slice(&self) -> &[u32]
        ensures { result.now ≡ self.now }
    {
        &self.numbers[self.from..self.to]
    }

    /// The ordinals after the first.
    #[inline(always)]
    pub fn without_first(&self) -> Spread
        requires { 0 < length self.now }
        ensures { result ≡ drop 1 self.now }
    {
        Spread {
            numbers: self.numbers,
            from: self.from + 1,
            to: self.to,
        }
    }
}
