//! Ordinals of a name that are together.

ghost use Rattle.std.specs.Prelude.{◌≡◌, ◌<◌, [], drop, length};

use crate::lent::Lent;
use crate::spread::Spread;
use std::marker::Model;

/// Ordinals of a name that are together, those nearest to the task first.
#[derive(Drop)]
pub struct Run<'a> {
    lent: Lent<'a>,
}

impl<'a> Model for Run<'a> {
    ghost use Rattle.std.specs.Prelude.{List, ℕ};
    ghost use Rattle.tb_model.specs.Stored.{lent_numbers};

    ghost Value = { List ℕ };

    ghost view = { λ r. lent_numbers r.lent };
}

impl<'a> Run<'a> {
    /// No ordinals.
    #[inline(always)]
    pub(crate) fn none() -> Run<'a>
        ensures { result ≡ [] }
    {
        Run {
            lent: Lent::Slice(&[]),
        }
    }

    /// A run of these ordinals, which are lent.
    #[inline(always)]
    pub(crate) fn of_slice(numbers: &'a [u32]) -> Run<'a>
        ensures { result ≡ numbers.now }
    {
        Run {
            lent: Lent::Slice(numbers),
        }
    }

    /// A run of ordinals that are in a name itself.
    #[inline(always)]
    pub(crate) fn of_spread(numbers: Spread) -> Run<'a>
        ensures { result ≡ numbers }
    {
        Run {
            lent: Lent::Spread(numbers),
        }
    }

    /// The ordinals.
    #[inline(always)]
    pub fn as_slice(&self) -> &[u32]
        ensures { result.now ≡ self.now }
    {
        match &self.lent {
            Lent::Slice(numbers) => numbers,
            Lent::Spread(numbers) => numbers.as_slice(),
        }
    }

    /// The run without its first ordinal.
    #[inline(always)]
    pub(crate) fn without_first(&self) -> Run<'a>
        requires { 0 < length self.now }
        ensures { result ≡ drop 1 self.now }
    {
        let lent = match &self.lent {
            Lent::Slice(numbers) => Lent::Slice(&numbers[1..]),
            Lent::Spread(numbers) => Lent::Spread(numbers.without_first()),
        };
        Run { lent }
    }
}
