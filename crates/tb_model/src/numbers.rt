//! The ordinals of a name.

ghost use Rattle.std.specs.Prelude.{◌≡◌, ◌≤◌, ◌<◌, [], ◌∷◌, ◌++◌, length, IfOk, IsOk, IfSome, IfNone, Some};
ghost use Rattle.tb_model.specs.Names.{same_name, parent};
ghost use Rattle.tb_model.specs.Stored.{numbers_in, IsShortest};

use crate::block::BLOCK;
use crate::few::Few;
use crate::in_common::are_same;
use crate::making::{cut, grown, shared};
use crate::parts::Parts;
use crate::run::Run;
use crate::stored::Stored;
use smallvec::SmallVec;
use std::alloc::{AllocError, Global};
use std::fmt;
use std::marker::Model;
use std::sync::Arc;

/// A list that takes two words. A short one takes no memory, nor does one of a few small ordinals;
/// the copies of a longer one share it.
#[derive(Drop)]
pub(crate) struct Numbers {
    alloc: Global,
    stored: Stored,
}

impl Model for Numbers {
    ghost use Rattle.std.specs.Prelude.{List, ℕ};

    ghost Value = { List ℕ };

    ghost use Rattle.tb_model.specs.Stored.{numbers_in, IsShortest};

    ghost view = { λ a. numbers_in a.stored };

    ghost invariant = { λ a. IsShortest a.stored };
}

impl Numbers {
    /// No ordinals.
    pub fn new(alloc: Global) -> Numbers
        ensures { result ≡ [] }
    {
        Numbers {
            alloc,
            stored: Stored::Zero,
        }
    }

    /// A list of these ordinals. Takes memory only for more than three.
    pub fn from_slice(alloc: Global, numbers: &[u32]) -> Result<Numbers, AllocError>
        ensures ok { IfOk result (λ n. n ≡ numbers.now) }
        ensures short { length numbers.now ≤ 3 → IsOk result }
    {
        let stored = match in_place(numbers) {
            Some(stored) => stored,
            None if numbers.len() <= BLOCK => {
                Stored::Shared(Arc::new(alloc, SmallVec::from_slice(alloc, numbers)?)?)
            }
            None => Stored::Deep(Arc::new(alloc, cut(alloc, numbers)?)?),
        };
        Ok(Numbers { alloc, stored })
    }

    /// The ordinals of these parts. Takes memory only for more than three.
    pub fn from_parts(alloc: Global, parts: &Parts<'_>) -> Result<Numbers, AllocError>
        ensures ok { IfOk result (λ n. n ≡ parts.now) }
        ensures short { length parts.now ≤ 3 → IsOk result }
    {
        if parts.far.is_empty() {
            return Numbers::from_slice(alloc, parts.near.as_slice());
        }
        let stored = Stored::Deep(Arc::new(alloc, shared(alloc, parts)?)?);
        Ok(Numbers { alloc, stored })
    }

    /// An ordinal, and those of the parts after it. Takes memory only for more than three.
    pub fn with_first(alloc: Global, first: u32, rest: &Parts<'_>) -> Result<Numbers, AllocError>
        ensures ok { IfOk result (λ n. n ≡ first ∷ rest.now) }
        ensures short { length rest.now < 3 → IsOk result }
    {
        let near = rest.near.as_slice();
        let stored = if rest.far.is_empty() && near.len() < BLOCK {
            with_few(alloc, first, near)?
        } else {
            Stored::Deep(Arc::new(alloc, grown(alloc, first, rest)?)?)
        };
        Ok(Numbers { alloc, stored })
    }

    /// An ordinal, and these after it. Takes memory only where these are three or more.
    #[inline(always)]
    pub fn child(&self, first: u32) -> Result<Numbers, AllocError>
        ensures ok { IfOk result (λ n. n ≡ first ∷ self.now) }
        ensures short { length self.now < 3 → IsOk result }
    {
        match with_first_in_place(&self.stored, first) {
            Some(stored) => Ok(Numbers {
                alloc: self.alloc,
                stored,
            }),
            None => self.child_in_general(first),
        }
    }

    /// An ordinal, and these after it, where they don't fit in the value together.
    // out of line: a short list doesn't pay for its stack frame
    #[inline(never)]
    fn child_in_general(&self, first: u32) -> Result<Numbers, AllocError>
        ensures ok { IfOk result (λ n. n ≡ first ∷ self.now) }
        ensures short { length self.now < 3 → IsOk result }
    {
        Numbers::with_first(self.alloc, first, &self.parts())
    }

    /// These ordinals but the first, where these and the others are in the value; of four small
    /// ordinals it isn't said.
    #[inline(always)]
    pub fn rest_in_place(&self) -> Option<Numbers>
        ensures { IfSome result (λ n. Some n ≡ parent self.now) }
    {
        let stored = rest_in_place(&self.stored)?;
        Some(Numbers {
            alloc: self.alloc,
            stored,
        })
    }

    /// The allocator.
    pub fn allocator(&self) -> Global {
        self.alloc
    }

    /// The ordinals, as they are in memory.
    #[inline]
    pub fn parts(&self) -> Parts<'_>
        ensures { result ≡ self.now }
    {
        let near: &[u32] = match &self.stored {
            Stored::Zero => &[],
            Stored::One(numbers) => numbers,
            Stored::Two(numbers) => numbers,
            Stored::Three(numbers) => numbers,
            Stored::Few(few) => {
                return Parts {
                    near: Run::of_spread(few.spread()),
                    far: &[],
                };
            }
            Stored::Shared(list) => list.as_slice(),
            Stored::Deep(deep) => {
                return Parts {
                    near: Run::of_slice(deep.near.as_slice()),
                    far: deep.far.as_slice(),
                };
            }
        };
        Parts {
            near: Run::of_slice(near),
            far: &[],
        }
    }

    /// The ordinals, where up to three are in the value itself.
    #[inline(always)]
    pub fn short(&self) -> Option<&[u32]>
        ensures is { IfSome result (λ n. n.now ≡ self.now) }
        ensures few { IfSome result (λ _. length self.now ≤ 3) }
        ensures none { IfNone result (3 < length self.now) }
    {
        let numbers: &[u32] = match &self.stored {
            Stored::Zero => &[],
            Stored::One(numbers) => numbers,
            Stored::Two(numbers) => numbers,
            Stored::Three(numbers) => numbers,
            Stored::Few(_) | Stored::Shared(_) => return None,
            Stored::Deep(_) => return None,
        };
        Some(numbers)
    }

    /// The ordinals, where more of them are there.
    #[inline(always)]
    pub fn few(&self) -> Option<&Few>
        ensures { IfSome result (λ n. n.now ≡ self.now) }
    {
        match &self.stored {
            Stored::Few(few) => Some(few),
            _ => None,
        }
    }

    /// A copy, which takes no memory. That of a list of more than three is refused where it has
    /// nine quintillion copies.
    #[inline(always)]
    pub fn copy(&self) -> Result<Numbers, AllocError>
        ensures ok { IfOk result (λ n. n ≡ self.now) }
        ensures short { length self.now ≤ 3 → IsOk result }
    {
        let stored = match &self.stored {
            Stored::Zero => Stored::Zero,
            Stored::One(numbers) => Stored::One(*numbers),
            Stored::Two(numbers) => Stored::Two(*numbers),
            Stored::Three(numbers) => Stored::Three(*numbers),
            Stored::Few(few) => Stored::Few(few.copy()),
            Stored::Shared(list) => Stored::Shared(Arc::try_clone(list)?),
            Stored::Deep(deep) => Stored::Deep(Arc::try_clone(deep)?),
        };
        Ok(Numbers {
            alloc: self.alloc,
            stored,
        })
    }

    /// Whether the ordinals are the same.
    #[inline(always)]
    pub fn is_same(&self, other: &Numbers) -> bool
        ensures { result ≡ same_name self.now other.now }
    {
        match (&self.stored, &other.stored) {
            (Stored::Zero, Stored::Zero) => true,
            (Stored::One([a]), Stored::One([k])) => *a == *k,
            (Stored::Two([a, b]), Stored::Two([k, l])) => *a == *k && *b == *l,
            (Stored::Three([a, b, c]), Stored::Three([k, l, m])) => {
                *a == *k && *b == *l && *c == *m
            }
            (Stored::Few(few), Stored::Few(others)) => few.is_same(others),
            _ => self.is_same_in_general(other),
        }
    }

    /// Whether the ordinals are the same, for lists of any length.
    // out of line: a comparison of two short names of one length doesn't pay for its stack frame
    #[inline(never)]
    fn is_same_in_general(&self, other: &Numbers) -> bool
        ensures { result ≡ same_name self.now other.now }
    {
        match (&self.stored, &other.stored) {
            (Stored::Shared(numbers), Stored::Shared(others)) => {
                are_same(numbers.as_slice(), others.as_slice())
            }
            (Stored::Deep(_), Stored::Deep(_)) => self.parts().is_same(&other.parts()),
            _ => self.is_same_elsewhere(other),
        }
    }

    /// Whether the ordinals are the same, where they are stored in two ways: of short lists the
    /// count decides.
    fn is_same_elsewhere(&self, other: &Numbers) -> bool
        ensures { result ≡ same_name self.now other.now }
    {
        if let Some(numbers) = self.short() {
            return match other.short() {
                Some(others) => are_same(numbers, others),
                None => false,
            };
        }
        if let Some(_numbers) = other.short() {
            return false;
        }
        self.parts().is_same(&other.parts())
    }
}

fn in_place(numbers: &[u32]) -> Option<Stored>
    ensures short { IfSome result (λ s. (numbers_in s ≡ numbers.now) × IsShortest s) }
    ensures long { IfNone result (3 < length numbers.now) }
{
    match numbers {
        [] => Some(Stored::Zero),
        [a] => Some(Stored::One([*a])),
        [a, b] => Some(Stored::Two([*a, *b])),
        [a, b, c] => Some(Stored::Three([*a, *b, *c])),
        [first, rest @ ..] => Some(Stored::Few(Few::with_first(*first, rest)?)),
    }
}

/// An ordinal, and these after it, where all are in the value.
#[inline(always)]
fn with_first_in_place(stored: &Stored, first: u32) -> Option<Stored>
    ensures { IfSome result (λ s. (numbers_in s ≡ first ∷ numbers_in stored.now) × IsShortest s) }
{
    match stored {
        Stored::Zero => Some(Stored::One([first])),
        Stored::One([a]) => Some(Stored::Two([first, *a])),
        Stored::Two([a, b]) => Some(Stored::Three([first, *a, *b])),
        Stored::Three(numbers) => Some(Stored::Few(Few::with_first(first, numbers)?)),
        Stored::Few(few) => Some(Stored::Few(few.with(first)?)),
        _ => None,
    }
}

/// The ordinals but the first, where these and the others are in the value; of four small ordinals
/// it isn't said.
#[inline(always)]
fn rest_in_place(stored: &Stored) -> Option<Stored>
    ensures { IfSome result (λ s. (Some (numbers_in s) ≡ parent (numbers_in stored.now)) × IsShortest s) }
{
    match stored {
        Stored::One([_a]) => Some(Stored::Zero),
        Stored::Two([_, a]) => Some(Stored::One([*a])),
        Stored::Three([_, a, b]) => Some(Stored::Two([*a, *b])),
        Stored::Few(few) => Some(Stored::Few(few.rest()?)),
        _ => None,
    }
}

/// An ordinal, and fewer than 128 after it.
fn with_few(alloc: Global, first: u32, rest: &[u32]) -> Result<Stored, AllocError>
    requires { length rest.now < 128 }
    ensures ok { IfOk result (λ s. (numbers_in s ≡ first ∷ rest.now) × IsShortest s) }
    ensures short { length rest.now < 3 → IsOk result }
{
    let stored = match rest {
        [] => Stored::One([first]),
        [a] => Stored::Two([first, *a]),
        [a, b] => Stored::Three([first, *a, *b]),
        _ => match Few::with_first(first, rest) {
            Some(few) => Stored::Few(few),
            None => {
                let mut list = SmallVec::with_capacity(alloc, rest.len() + 1)?;
                list.push_reserved(first);
                list.extend_from_slice(rest)?;
                Stored::Shared(Arc::new(alloc, list)?)
            }
        },
    };
    Ok(stored)
}

impl fmt::Debug for Numbers {
    fn fmt<W: fmt::Write>(&self, f: &mut fmt::Formatter<W>) -> fmt::Result {
        let Parts { near, far } = self.parts();
        let mut list = f.debug_list();
        list.entries(near.as_slice());
        for block in far.iter().rev() {
            list.entries(block.as_slice());
        }
        list.finish()
    }
}
