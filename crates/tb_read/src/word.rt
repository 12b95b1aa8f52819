//! What a word is.

ghost use Rattle.std.specs.Prelude.{◌≡◌, ◌<◌, ◌≤◌, ◌^◌, map, pos, neg_ℤ, IfSome, IsTrue};
ghost use Rattle.std.specs.List.{list_all};
ghost use Rattle.std.specs.Char.{is_ascii_digit};
ghost use Rattle.tb_plan.specs.Statements.{is_sound_operand};
ghost use Rattle.tb_read.specs.Word.{same_word, word_at, is_numeral, magnitude_of, number_of, register_of, operand_of, operator_of, resembles_register, is_name, begins_name, continues_name, comparison_of, kind_of, is_all};

use tb_model::{Comparison, Kind, Operand, Operator};

/// The least number, without its sign.
const LEAST: u64 = 1 << 63;

/// Whether two words are the same bytes.
pub fn same_word(a: &[u8], b: &[u8]) -> bool
    ensures { result ≡ same_word a.now b.now }
{
    // Most words that are compared differ in length.
    a.len() == b.len() && a == b
}

/// The word at an index, an empty one where there is none.
pub fn word_at<'a>(words: &[&'a [u8]], at: usize) -> &'a [u8]
    ensures { result.now ≡ word_at (map (λ word. word.now) words.now) at }
{
    if at < words.len() { words[at] } else { &[] }
}

fn are_digits(bytes: &[u8]) -> bool
    ensures { result ≡ list_all is_ascii_digit bytes.now }
{
    bytes.iter().all(|b| b.is_ascii_digit())
}

fn is_numeral(digits: &[u8]) -> bool
    ensures { result ≡ is_numeral digits.now }
{
    !digits.is_empty() && are_digits(digits)
}

/// The value of one or more digits, up to that of the least number.
pub fn magnitude(digits: &[u8]) -> Option<u64>
    ensures magnitude { result ≡ magnitude_of digits.now }
    ensures most { IfSome result (λ value. value ≤ 2 ^ 63) }
{
    if digits.is_empty() {
        return None;
    }
    let mut value = 0;
    let mut left = digits;
    while let [b, rest @ ..] = left {
        if !b.is_ascii_digit() {
            return None;
        }
        // More digits only make it larger.
        if LEAST / 10 < value {
            return None;
        }
        value = value * 10 + (*b - b'0') as u64;
        left = rest;
    }
    if value <= LEAST { Some(value) } else { None }
}

fn negated(value: u64) -> i64
    requires { value ≤ 2 ^ 63 }
    ensures { result ≡ neg_ℤ (pos value) }
{
    if value < LEAST {
        -(value as i64)
    } else {
        i64::MIN
    }
}

/// The number that the word is.
pub fn number(word: &[u8]) -> Option<i64>
    ensures { result ≡ number_of word.now }
{
    match word {
        [b'-', digits @ ..] => match magnitude(digits) {
            Some(value) => Some(negated(value)),
            None => None,
        },
        _ => match magnitude(word) {
            Some(value) if value < LEAST => Some(value as i64),
            _ => None,
        },
    }
}

/// The register that the word is.
pub fn register(word: &[u8]) -> Option<u8>
    ensures register { result ≡ register_of word.now }
    ensures within { IfSome result (λ r. r < 16) }
{
    match word {
        [b'r', d] if d.is_ascii_digit() => Some(*d - b'0'),
        [b'r', b'1', d] if b'0' <= *d && *d <= b'5' => Some(10 + (*d - b'0')),
        _ => None,
    }
}

/// The number or the register that the word is.
pub fn operand(word: &[u8]) -> Option<Operand>
    ensures operand { result ≡ operand_of word.now }
    ensures sound { IfSome result (λ o. IsTrue (is_sound_operand o)) }
{
    match number(word) {
        Some(x) => Some(Operand::Number(x)),
        None => match register(word) {
            Some(reg) => Some(Operand::Register(reg)),
            None => None,
        },
    }
}

/// The operator that the word is.
pub fn operator(word: &[u8]) -> Option<Operator>
    ensures { result ≡ operator_of word.now }
{
    if same_word(word, b"+") {
        Some(Operator::Plus)
    } else if same_word(word, b"-") {
        Some(Operator::Minus)
    } else if same_word(word, b"*") {
        Some(Operator::Times)
    } else {
        None
    }
}

/// The comparison that the word is.
pub fn comparison(word: &[u8]) -> Option<Comparison>
    ensures { result ≡ comparison_of word.now }
{
    if same_word(word, b"==") {
        Some(Comparison::Equal)
    } else if same_word(word, b"!=") {
        Some(Comparison::Unequal)
    } else if same_word(word, b"<") {
        Some(Comparison::Less)
    } else if same_word(word, b"<=") {
        Some(Comparison::AtMost)
    } else {
        None
    }
}

/// The dependence type that the word is.
pub fn kind(word: &[u8]) -> Option<Kind>
    ensures { result ≡ kind_of word.now }
{
    if same_word(word, b"in") {
        Some(Kind::In)
    } else if same_word(word, b"out") {
        Some(Kind::Out)
    } else if same_word(word, b"inout") {
        Some(Kind::Inout)
    } else if same_word(word, b"mutexinoutset") {
        Some(Kind::Mutexinoutset)
    } else if same_word(word, b"inoutset") {
        Some(Kind::Inoutset)
    } else {
        None
    }
}

/// Whether the word means all memory.
pub fn is_all(word: &[u8]) -> bool
    ensures { result ≡ is_all word.now }
{
    same_word(word, b"all")
}

/// Whether the word is `r` with digits after it.
pub fn resembles_register(word: &[u8]) -> bool
    ensures { result ≡ resembles_register word.now }
{
    match word {
        [b'r', digits @ ..] => is_numeral(digits),
        _ => false,
    }
}

fn begins_name(b: u8) -> bool
    ensures { result ≡ begins_name b }
{
    b.is_ascii_alphabetic() || b == b'_'
}

fn continue_name(bytes: &[u8]) -> bool
    ensures { result ≡ list_all continues_name bytes.now }
{
    bytes.iter().all(|b| begins_name(*b) || b.is_ascii_digit())
}

/// Whether the word can name a body.
pub fn is_name(word: &[u8]) -> bool
    ensures { result ≡ is_name word.now }
{
    !word.is_empty() && word.len() <= 32 && begins_name(word[0]) && continue_name(word)
}
