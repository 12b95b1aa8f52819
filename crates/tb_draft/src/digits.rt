//! The digits of a number, from the last to the first.

ghost use Rattle.std.specs.Prelude.{◌≡◌, ◌+◌, ◌-◌, ◌/◌, ◌%◌, ◌<◌, ◌≤◌, ◌∷◌, ◌++◌, decimal, drop, length};

use crate::short_text::ROOM;

/// The two digits of each number below 100.
static PAIRS: [u8; 200] =
    *b"00010203040506070809101112131415161718192021222324252627282930313233343536373839404142434445464748495051525354555657585960616263646566676869707172737475767778798081828384858687888990919293949596979899";

#[inline(always)]
fn put_pair(bytes: &mut [u8; ROOM], at: usize, pair: u32)
    requires { (pair < 100) × (at + 2 ≤ 96) }
    ensures { drop at bytes.new ≡ (48 + pair / 10) ∷ (48 + pair % 10) ∷ drop (at + 2) bytes.old }
{
    let from = pair as usize * 2;
    let (tens, ones) = (PAIRS[from], PAIRS[from + 1]);
    bytes[at] = tens;
    bytes[at + 1] = ones;
}

/// Puts the number in front of the index, and returns where it begins.
#[inline(always)]
pub(crate) fn put_digits(bytes: &mut [u8; ROOM], end: usize, n: u32) -> usize
    requires { (length (decimal n) ≤ end) × (end ≤ 96) }
    ensures start { result + length (decimal n) ≡ end }
    ensures digits { drop result bytes.new ≡ decimal n ++ drop end bytes.old }
{
    let mut left = n;
    let mut at = end;
    'pairs: while left >= 100 {
        at -= 2;
        put_pair(bytes, at, left % 100);
        left /= 100;
    }
    put_first(bytes, at, left)
}

/// Puts the one or two digits of a number.
#[inline(always)]
fn put_first(bytes: &mut [u8; ROOM], end: usize, n: u32) -> usize
    requires { (n < 100) × (length (decimal n) ≤ end) × (end ≤ 96) }
    ensures start { result + length (decimal n) ≡ end }
    ensures digits { drop result bytes.new ≡ decimal n ++ drop end bytes.old }
{
    if n < 10 {
        bytes[end - 1] = b'0' + n as u8;
        return end - 1;
    }
    put_pair(bytes, end - 2, n);
    end - 2
}

/// Puts a level of one digit in front of the index, with its dot.
#[inline(always)]
pub(crate) fn put_digit_level(bytes: &mut [u8; ROOM], end: usize, n: u8)
    requires { (n < 10) × (2 ≤ end) × (end ≤ 96) }
    ensures { drop (end - 2) bytes.new ≡ 46 ∷ decimal n ++ drop end bytes.old }
{
    bytes[end - 1] = b'0' + n;
    bytes[end - 2] = b'.';
}

/// Puts a number that may be long, as `put_digits` does.
#[inline(always)]
pub(crate) fn put_long(bytes: &mut [u8; ROOM], end: usize, n: u64) -> usize
    requires { (length (decimal n) ≤ end) × (end ≤ 96) }
    ensures start { result + length (decimal n) ≡ end }
    ensures digits { drop result bytes.new ≡ decimal n ++ drop end bytes.old }
{
    let mut left = n;
    let mut at = end;
    // what is left divides faster once it takes half a word
    'digits: while left > u64::from(u32::MAX) {
        at -= 1;
        bytes[at] = b'0' + (left % 10) as u8;
        left /= 10;
    }
    put_digits(bytes, at, left as u32)
}
