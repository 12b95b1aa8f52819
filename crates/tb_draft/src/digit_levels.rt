//! Levels of one digit each, many at a time.

ghost use Rattle.std.specs.Prelude.{◌≡◌, ◌+◌, ◌*◌, ◌-◌, ◌<◌, ◌≤◌, ◌++◌, IsFalse, IsTrue, drop, length, true};
ghost use Rattle.std.specs.List.{list_all};
ghost use Rattle.tb_model.specs.Spelling.{is_digit, levels_text};

use crate::short_text::ROOM;
use std::simd::prelude::*;

/// Whether each of eight numbers has one digit.
#[inline(always)]
fn are_eight_digits(numbers: &[u8]) -> bool
    requires { length numbers.now ≡ 8 }
    ensures { result ≡ list_all is_digit numbers.now }
{
    match numbers {
        [a, b, c, d, e, f, g, h] => {
            (*a < 10)
                & (*b < 10)
                & (*c < 10)
                & (*d < 10)
                & (*e < 10)
                & (*f < 10)
                & (*g < 10)
                & (*h < 10)
        }
        _ => false,
    }
}

/// Whether each of four numbers has one digit.
#[inline(always)]
fn are_four_digits(numbers: &[u8]) -> bool
    requires { length numbers.now ≡ 4 }
    ensures { result ≡ list_all is_digit numbers.now }
{
    match numbers {
        [a, b, c, d] => (*a < 10) & (*b < 10) & (*c < 10) & (*d < 10),
        _ => false,
    }
}

/// Puts eight levels at the index, the last one first.
#[inline(always)]
fn put_eight(bytes: &mut [u8; ROOM], at: usize, numbers: &[u8])
    requires numbers { (length numbers.now ≡ 8) × (list_all is_digit numbers.now ≡ true) }
    requires room { at + 16 ≤ 96 }
    ensures { drop at bytes.new ≡ levels_text numbers.now ++ drop (at + 16) bytes.old }
{
    let mut own = [0; 8];
    own.copy_from_slice(numbers);
    let turned = u64::from_be_bytes(own).to_le_bytes();
    let digits = u8x8::splat(b'0').strict_add(u8x8::from_array(turned));
    let dots = u8x8::splat(b'.');
    let text: u8x16 = dots.shuffle(
        digits,
        [0, 8, 1, 9, 2, 10, 3, 11, 4, 12, 5, 13, 6, 14, 7, 15],
    );
    text.copy_to_slice(&mut bytes[at..at + 16]);
}

/// Puts four levels at the index, the last one first.
#[inline(always)]
fn put_four(bytes: &mut [u8; ROOM], at: usize, numbers: &[u8])
    requires numbers { (length numbers.now ≡ 4) × (list_all is_digit numbers.now ≡ true) }
    requires room { at + 8 ≤ 96 }
    ensures { drop at bytes.new ≡ levels_text numbers.now ++ drop (at + 8) bytes.old }
{
    let mut own = [0; 4];
    own.copy_from_slice(numbers);
    let turned = u32::from_be_bytes(own).to_le_bytes();
    let digits = u8x4::splat(b'0').strict_add(u8x4::from_array(turned));
    let dots = u8x4::splat(b'.');
    let text: u8x8 = dots.shuffle(digits, [0, 4, 1, 5, 2, 6, 3, 7]);
    text.copy_to_slice(&mut bytes[at..at + 8]);
}

/// Puts levels in front of the index, the last of these first, if they have one digit each and are
/// four to sixteen, and returns whether they were. Some may be put twice, so that there is no loop.
#[inline(always)]
pub(crate) fn put_digit_levels(bytes: &mut [u8; ROOM], end: usize, numbers: &[u8]) -> bool
    requires { (length numbers.now * 2 ≤ end) × (end ≤ 96) }
    ensures put { IsTrue result → drop (end - length numbers.now * 2) bytes.new ≡ levels_text numbers.now ++ drop end bytes.old }
    ensures digits { IsTrue result → list_all is_digit numbers.now ≡ true }
    ensures kept { IsFalse result → bytes.new ≡ bytes.old }
{
    let count = numbers.len();
    if count >= 8 {
        if count > 16 {
            return false;
        }
        let (first, last) = (&numbers[..8], &numbers[count - 8..]);
        if !(are_eight_digits(first) & are_eight_digits(last)) {
            return false;
        }
        put_eight(bytes, end - 16, first);
        put_eight(bytes, end - count * 2, last);
        return true;
    }
    if count < 4 {
        return false;
    }
    let (first, last) = (&numbers[..4], &numbers[count - 4..]);
    if !(are_four_digits(first) & are_four_digits(last)) {
        return false;
    }
    put_four(bytes, end - 8, first);
    put_four(bytes, end - count * 2, last);
    true
}
