//! A set of small ordinals.

ghost use Rattle.std.specs.Prelude.{◌≡◌, ◌<◌, []};
ghost use Rattle.tb_wait.specs.Numbers.{has, is_empty, IsPut, IsNextAbove};
ghost use Rattle.tb_wait.specs.Few.{held};

/// A set of ordinals below 64: bit n says whether n is there.
#[derive(Drop)]
pub struct Few {
    bits: u64,
}

impl Few {
    /// No ordinal.
    #[inline]
    pub fn new() -> Few
        ensures { held result.bits ≡ [] }
    {
        Few { bits: 0 }
    }

    /// Whether there is no ordinal.
    #[inline]
    pub fn is_empty(&self) -> bool
        ensures { result ≡ is_empty (held self.now.bits) }
    {
        self.bits == 0
    }

    /// Whether the ordinal is there.
    #[inline]
    pub fn has(&self, n: u32) -> bool
        requires { n < 64 }
        ensures { result ≡ has (held self.now.bits) n }
    {
        (self.bits >> n) & 1 == 1
    }

    /// Puts the ordinal in or takes it out.
    #[inline]
    pub fn set(&mut self, n: u32, there: bool)
        requires { n < 64 }
        ensures { IsPut (held self.old.bits) n there (held self.new.bits) }
    {
        if there {
            self.bits |= 1 << n;
        } else {
            self.bits &= !(1 << n);
        }
    }

    /// The least ordinal above `low`.
    #[inline]
    pub fn next_above(&self, low: u32) -> Option<u32>
        ensures { IsNextAbove (held self.now.bits) low result }
    {
        let bits = self.bits;
        if low >= 63 {
            return None;
        }
        let first = low + 1;
        let left = bits >> first;
        if left == 0 {
            None
        } else {
            Some(first + left.trailing_zeros())
        }
    }
}
