//! The order of names.

ghost use Rattle.std.specs.Prelude.{◌≡◌};
ghost use Rattle.tb_model.specs.Names.{name_cmp};

use crate::in_common::without_common;
use crate::numbers::Numbers;
use crate::parts::Parts;
use std::cmp::Ordering;

/// How the one name relates to the other: ordinal by ordinal from the root, a parent before its
/// children.
pub(crate) fn compared(a: &Numbers, b: &Numbers) -> Ordering
    ensures { result ≡ name_cmp a.now b.now }
{
    if let (Some(own), Some(others)) = (a.few(), b.few()) {
        return own.compared(others);
    }
    if let (Some(own), Some(others)) = (a.short(), b.short()) {
        return by_numbers(own, others);
    }
    in_general(a, b)
}

/// The order of two names of any length.
// out of line: a comparison of short names doesn't pay for its stack frame
#[inline(never)]
fn in_general(a: &Numbers, b: &Numbers) -> Ordering
    ensures { result ≡ name_cmp a.now b.now }
{
    by_parts(&a.parts(), &b.parts())
}

/// The order of two names, by their parts. Deep names of one program mostly begin alike at the
/// root, so the blocks that both have there are passed over.
fn by_parts(a: &Parts<'_>, b: &Parts<'_>) -> Ordering
    ensures { result ≡ name_cmp a.now b.now }
{
    let mut left = a.far;
    let mut right = b.far;
    'blocks: while let [x, more @ ..] = left {
        let [y, others @ ..] = right else {
            return by_numbers(x.as_slice(), b.near.as_slice()).then(Ordering::Greater);
        };
        if !x.is_same(y) {
            return by_numbers(x.as_slice(), y.as_slice());
        }
        left = more;
        right = others;
    }
    match right {
        [] => by_numbers(a.near.as_slice(), b.near.as_slice()),
        [y, ..] => by_numbers(a.near.as_slice(), y.as_slice()).then(Ordering::Less),
    }
}

/// How ordinals relate to others, the last of each compared first.
fn by_numbers(a: &[u32], b: &[u32]) -> Ordering
    ensures { result ≡ name_cmp a.now b.now }
{
    let (own, others) = without_common(a, b);
    own.iter().rev().cmp(others.iter().rev())
}
