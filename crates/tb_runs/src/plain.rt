//! Words as most lines spell them, read from the bytes of the line: no end is looked for first. What
//! is spelled another way isn't read here.

ghost use Rattle.std.specs.Prelude.{◌≡◌, ◌<◌, ◌^◌, IfSome, Ok, Some, pos};
ghost use Rattle.tb_read.specs.Text.{line_words};
ghost use Rattle.tb_runs.specs.Actions.{verb_in};
ghost use Rattle.tb_runs.specs.Names.{task_of};
ghost use Rattle.tb_runs.specs.Plain.{begins_digit, begins_ordinal, numeral_on};
ghost use Rattle.tb_runs.specs.Reading.{id_in, number_in};

use crate::name::{Id, LAST_STEP, hash_at, read_task};
use crate::verb::Verb;
use crate::words::behind;
use std::alloc::Global;
use tb_model::TaskName;
use tb_read::same_word;

/// A value below this one may get a digit more.
const MOST_BEFORE_A_DIGIT: u64 = 900_000_000_000_000_000;

/// The number whose digits come first, up to a blank or the end, and what comes after it. A very
/// long one isn't read.
#[inline(always)]
fn leading_digits(bytes: &[u8]) -> Option<(u64, &[u8])>
    ensures number { IfSome result (λ r. numeral_on 0 bytes.now ≡ Some (r.0, r.1.now)) }
    ensures most { IfSome result (λ r. r.0 < 2 ^ 63) }
{
    let mut value: u64 = 0;
    let mut left = bytes;
    while let [b, rest @ ..] = left {
        if !b.is_ascii_digit() {
            if *b == b' ' {
                return Some((value, rest));
            }
            return None;
        }
        if MOST_BEFORE_A_DIGIT <= value {
            return None;
        }
        value = value * 10 + (*b - b'0') as u64;
        left = rest;
    }
    Some((value, left))
}

#[inline(always)]
fn begins_digit(bytes: &[u8]) -> bool
    ensures { result ≡ begins_digit bytes.now }
{
    match bytes {
        [b, ..] => b.is_ascii_digit(),
        [] => false,
    }
}

/// Whether the first byte is a digit, and no leading zero.
#[inline(always)]
fn begins_ordinal(bytes: &[u8]) -> bool
    ensures { result ≡ begins_ordinal bytes.now }
{
    match bytes {
        [b, ..] => b.is_ascii_digit() && *b != b'0',
        [] => false,
    }
}

/// A number without a sign.
#[inline(always)]
pub fn plain_digits(bytes: &[u8]) -> Option<(u64, &[u8])>
    ensures number { IfSome result
        (λ r. number_in (line_words bytes.now) ≡ Ok (pos r.0, line_words r.1.now)) }
    ensures most { IfSome result (λ r. r.0 < 2 ^ 63) }
{
    if !begins_digit(bytes) {
        return None;
    }
    let (value, rest) = leading_digits(bytes)?;
    Some((value, rest))
}

/// The first word of what most events say.
#[inline(always)]
#[tactic(auto, using(crate::proofs::PlainLemmas::load_led, crate::proofs::PlainLemmas::store_led, crate::proofs::PlainLemmas::let_led))]
pub fn plain_verb(bytes: &[u8]) -> Option<(Verb, &[u8])>
    ensures { IfSome result
        (λ r. verb_in (line_words bytes.now) ≡ Ok (r.0, line_words r.1.now)) }
{
    match bytes {
        [b'l', b'o', b'a', b'd', b' ', rest @ ..] => Some((Verb::Load, rest)),
        [b's', b't', b'o', b'r', b'e', b' ', rest @ ..] => Some((Verb::Store, rest)),
        [b'l', b'e', b't', b' ', rest @ ..] => Some((Verb::Let, rest)),
        _ => None,
    }
}

/// The task that the bytes name, where memory suffices.
#[inline(always)]
#[tactic(auto, using(crate::proofs::PlainLemmas::root_named))]
fn plain_task(alloc: Global, bytes: &[u8]) -> Option<TaskName>
    ensures { IfSome result (λ task. task_of bytes.now ≡ Some task) }
{
    if same_word(bytes, b"0") {
        return Some(TaskName::root(alloc));
    }
    match read_task(alloc, bytes) {
        Ok(Some(task)) => Some(task),
        _ => None,
    }
}

/// A task and the ordinal of its step.
#[inline(always)]
pub fn plain_id(alloc: Global, bytes: &[u8]) -> Option<(Id, &[u8])>
    ensures { IfSome result
        (λ r. id_in (line_words bytes.now) ≡ Ok (r.0, line_words r.1.now)) }
{
    let at = hash_at(bytes);
    let digits = behind(bytes, at);
    if !begins_ordinal(digits) {
        return None;
    }
    let (step, rest) = leading_digits(digits)?;
    if step == 0 || LAST_STEP < step {
        return None;
    }
    let task = plain_task(alloc, &bytes[..at])?;
    Some((
        Id {
            task,
            step: Some(step),
        },
        rest,
    ))
}
