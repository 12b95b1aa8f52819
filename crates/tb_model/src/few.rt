//! Small ordinals that are in a name itself.

ghost use Rattle.std.specs.Prelude.{◌≡◌, ◌<◌, ◌≤◌, ◌∷◌, IfSome, IfNone, drop, length};
ghost use Rattle.tb_model.specs.Names.{name_cmp, same_name};

use crate::in_common::{are_eight_same, without_common_bytes};
use crate::spread::Spread;
use std::cmp::Ordering;
use std::marker::Model;

/// The most ordinals that are in a name itself where each takes a byte.
pub(crate) const FEW: usize = 14;

/// Four to fourteen ordinals below 256, a byte each.
#[derive(Drop)]
pub(crate) struct Few {
    count: u8,
    /// The ordinals, then zeros, so that all are compared at once.
    bytes: [u8; FEW],
}

impl Model for Few {
    ghost use Rattle.std.specs.Prelude.{List, ℕ, take};
    ghost use Rattle.tb_model.specs.Bytes.{IsFilled};

    ghost Value = { List ℕ };

    ghost view = { λ f. take f.count f.bytes };

    ghost invariant = { λ f. IsFilled f.count f.bytes };
}

impl Few {
    /// An ordinal, and those after it, if they are few and small.
    pub fn with_first(first: u32, rest: &[u32]) -> Option<Few>
        ensures { IfSome result (λ f. f ≡ first ∷ rest.now) }
    {
        if rest.len() < 3 || rest.len() >= FEW || first > 255 {
            return None;
        }
        let mut bytes = [0u8; FEW];
        bytes[0] = first as u8;
        for i in 0..rest.len() {
            if rest[i] > 255 {
                return None;
            }
            bytes[i + 1] = rest[i] as u8;
        }
        Some(Few {
            count: rest.len() as u8 + 1,
            bytes,
        })
    }

    /// A copy of the ordinals.
    #[inline(always)]
    pub fn copy(&self) -> Few
        ensures { result ≡ self.now }
    {
        Few {
            count: self.count,
            bytes: self.bytes,
        }
    }

    /// Whether the ordinals are the same, without a branch after each.
    #[inline(always)]
    pub fn is_same(&self, other: &Few) -> bool
        ensures { result ≡ same_name self.now other.now }
    {
        self.count == other.count && are_all_same(&self.bytes, &other.bytes)
    }

    /// The ordinals.
    #[inline(always)]
    pub fn as_bytes(&self) -> &[u8]
        ensures is { result.now ≡ self.now }
        ensures some { 3 < length self.now }
        ensures few { length self.now ≤ 14 }
    {
        &self.bytes[..usize::from(self.count)]
    }

    /// An ordinal, and these after it, if they stay few and small.
    #[inline(always)]
    pub fn with(&self, first: u32) -> Option<Few>
        ensures { IfSome result (λ f. f ≡ first ∷ self.now) }
    {
        if usize::from(self.count) >= FEW || first > 255 {
            return None;
        }
        let mut bytes = [0u8; FEW];
        bytes[0] = first as u8;
        bytes[1..].copy_from_slice(&self.bytes[..FEW - 1]);
        Some(Few {
            count: self.count + 1,
            bytes,
        })
    }

    /// The ordinals after the first, if there are more than three.
    #[inline(always)]
    pub fn rest(&self) -> Option<Few>
        ensures rest { IfSome result (λ f. f ≡ drop 1 self.now) }
        ensures none { IfNone result (length self.now ≤ 4) }
    {
        if self.count <= 4 {
            return None;
        }
        let mut bytes = [0u8; FEW];
        bytes[..FEW - 1].copy_from_slice(&self.bytes[1..]);
        Some(Few {
            count: self.count - 1,
            bytes,
        })
    }

    /// How these ordinals relate to others, the last of each compared first.
    pub fn compared(&self, other: &Few) -> Ordering
        ensures { result ≡ name_cmp self.now other.now }
    {
        let (mut own, mut others) = without_common_bytes(self.as_bytes(), other.as_bytes());
        'levels: while let [front @ .., m] = own {
            let [their_front @ .., n] = others else {
                return Ordering::Greater;
            };
            if *m != *n {
                return m.cmp(n);
            }
            own = front;
            others = their_front;
        }
        0.cmp(&others.len())
    }

    /// The ordinals, four bytes each.
    #[inline(always)]
    pub fn spread(&self) -> Spread
        ensures { result ≡ self.now }
    {
        let mut numbers = [0; FEW];
        for i in 0..FEW {
            numbers[i] = u32::from(self.bytes[i]);
        }
        Spread::new(numbers, usize::from(self.count))
    }
}

/// Whether all bytes are the same. Two of them are compared twice, so that two comparisons do.
#[inline(always)]
fn are_all_same(a: &[u8; FEW], b: &[u8; FEW]) -> bool
    ensures { result ≡ same_name a.now b.now }
{
    are_eight_same(&a[..8], &b[..8]) && are_eight_same(&a[6..], &b[6..])
}
