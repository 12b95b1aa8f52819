//! What the ordinals of two names have in common.

ghost use Rattle.std.specs.Prelude.{◌≡◌, length};
ghost use Rattle.tb_model.specs.Names.{same_name, name_cmp};

// How many ordinals are compared at once.
const AT_ONCE: usize = 16;

// How many are compared at once of those that are left, fewer than `AT_ONCE`.
const FEW: usize = 4;

/// Whether the ordinals are the same. Sixteen are compared at once, then four.
#[inline]
#[tactic(auto, using(crate::proofs::WithinLemmas::different))]
pub(crate) fn are_same(a: &[u32], b: &[u32]) -> bool
    ensures { result ≡ same_name a.now b.now }
{
    if a.len() != b.len() {
        return false;
    }
    let mut left = a;
    let mut right = b;
    'blocks: while left.len() >= AT_ONCE {
        if !are_so_many_same(&left[..AT_ONCE], &right[..AT_ONCE], AT_ONCE) {
            return false;
        }
        left = &left[AT_ONCE..];
        right = &right[AT_ONCE..];
    }
    'fours: while left.len() >= FEW {
        if !are_so_many_same(&left[..FEW], &right[..FEW], FEW) {
            return false;
        }
        left = &left[FEW..];
        right = &right[FEW..];
    }
    'numbers: while let ([n, more @ ..], [s, others @ ..]) = (left, right) {
        if *n != *s {
            return false;
        }
        left = more;
        right = others;
    }
    true
}

/// Whether two lists of so many ordinals are the same, without a branch after each ordinal.
#[inline(always)]
fn are_so_many_same(a: &[u32], b: &[u32], count: usize) -> bool
    requires { (length a.now ≡ count) × (length b.now ≡ count) }
    ensures { result ≡ same_name a.now b.now }
{
    let mut same = true;
    for i in 0..count {
        same &= a[i] == b[i];
    }
    same
}

/// Whether two lists of ordinals below 256 are the same, without a branch after each ordinal.
#[inline(always)]
pub(crate) fn are_bytes_same<const N: usize>(a: &[u8; N], b: &[u8; N]) -> bool
    ensures { result ≡ same_name a.now b.now }
{
    let mut same = true;
    for i in 0..N {
        same &= a[i] == b[i];
    }
    same
}

/// The ordinals without most of the last ones that both have, which don't decide the order: deep
/// names of one program mostly begin alike at the root.
pub(crate) fn without_common<'a>(a: &'a [u32], b: &'a [u32]) -> (&'a [u32], &'a [u32])
    ensures { name_cmp result.0.now result.1.now ≡ name_cmp a.now b.now }
{
    let mut m = a.len();
    let mut n = b.len();
    'common: while m > AT_ONCE && n > AT_ONCE {
        let i = m - AT_ONCE;
        let j = n - AT_ONCE;
        if !are_same(&a[i..m], &b[j..n]) {
            return (&a[..m], &b[..n]);
        }
        m = i;
        n = j;
    }
    (&a[..m], &b[..n])
}

/// Ordinals below 256 without most of the last ones that both have, which don't decide the order:
/// four are compared at once.
#[inline(always)]
pub(crate) fn without_common_bytes<'a>(a: &'a [u8], b: &'a [u8]) -> (&'a [u8], &'a [u8])
    ensures { name_cmp result.0.now result.1.now ≡ name_cmp a.now b.now }
{
    let mut m = a.len();
    let mut n = b.len();
    'common: while m > FEW && n > FEW {
        let i = m - FEW;
        let j = n - FEW;
        if !are_four_same(&a[i..m], &b[j..n]) {
            return (&a[..m], &b[..n]);
        }
        m = i;
        n = j;
    }
    (&a[..m], &b[..n])
}

/// Whether eight bytes are the same as eight others, by one comparison.
#[inline(always)]
pub(crate) fn are_eight_same(a: &[u8], b: &[u8]) -> bool
    requires { (length a.now ≡ 8) × (length b.now ≡ 8) }
    ensures { result ≡ same_name a.now b.now }
{
    let mut own = [0; 8];
    let mut others = [0; 8];
    own.copy_from_slice(a);
    others.copy_from_slice(b);
    u64::from_le_bytes(own) == u64::from_le_bytes(others)
}

/// Whether four bytes are the same as four others, by one comparison.
#[inline(always)]
fn are_four_same(a: &[u8], b: &[u8]) -> bool
    requires { (length a.now ≡ 4) × (length b.now ≡ 4) }
    ensures { result ≡ same_name a.now b.now }
{
    match (a, b) {
        ([k, l, m, n], [p, q, r, s]) => {
            u32::from_le_bytes([*k, *l, *m, *n]) == u32::from_le_bytes([*p, *q, *r, *s])
        }
        _ => false,
    }
}
