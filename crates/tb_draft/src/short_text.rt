//! A short text, put together from its end.

ghost use Rattle.std.specs.Prelude.{◌≡◌, ◌+◌, ◌<◌, ◌≤◌, ◌++◌, ◌∷◌, [], IfNone, IfSome, IsSome, decimal, if◌then◌else◌, length};
ghost use Rattle.std.specs.Fmt.{signed_decimal};
ghost use Rattle.tb_model.specs.Spelling.{levels_text, name_text};

use crate::digit_levels::put_digit_levels;
use crate::digits::{put_digit_level, put_digits, put_long};
use std::marker::Model;
use tb_model::TaskName;

/// The most bytes that a short text has.
pub(crate) const ROOM: usize = 96;

/// A name of more levels is spelled faster from its front.
const LEVELS: usize = 16;

/// A text of up to 96 bytes, put together from its end to its front, as the digits of a number come. Takes no memory.
#[derive(Drop)]
pub struct ShortText {
    bytes: [u8; ROOM],
    at: usize,
}

impl Model for ShortText {
    ghost use Rattle.std.specs.Prelude.{List, ℕ, ◌≤◌, drop};
    ghost use Rattle.std.specs.Str.{IsUtf8};

    ghost Value = { List ℕ };

    ghost view = { λ s. drop s.at s.bytes };

    ghost invariant = { λ s. (s.at ≤ 96) × IsUtf8 (drop s.at s.bytes) };
}

impl ShortText {
    /// An empty text.
    #[inline(always)]
    pub fn new() -> ShortText
        ensures { result ≡ [] }
    {
        ShortText {
            bytes: [0; ROOM],
            at: ROOM,
        }
    }

    /// The text.
    #[inline(always)]
    pub fn as_str(&self) -> &str
        ensures { result.now ≡ self.now }
    {
        // only whole texts and digits were put there
        unsafe { str::from_utf8_unchecked(&self.bytes[self.at..]) }
    }

    /// Puts a text in front, if there is capacity.
    #[inline(always)]
    pub fn prepend(&mut self, text: &str) -> Option<()>
        ensures some { IfSome result (λ _. self.new ≡ text.now ++ self.old) }
        ensures none { IfNone result (self.new ≡ self.old) }
        ensures succeeds { length text.now + length self.old ≤ 96 → IsSome result }
    {
        let text = text.as_bytes();
        if self.at < text.len() {
            return None;
        }
        let at = self.at - text.len();
        self.bytes[at..self.at].copy_from_slice(text);
        self.at = at;
        Some(())
    }

    /// Puts a number in front, in decimal, if there is capacity for ten digits.
    #[inline(always)]
    pub fn prepend_number(&mut self, n: u32) -> Option<()>
        ensures some { IfSome result (λ _. self.new ≡ decimal n ++ self.old) }
        ensures none { IfNone result (self.new ≡ self.old) }
        ensures succeeds { length self.old + 10 ≤ 96 → IsSome result }
    {
        if self.at < 10 {
            return None;
        }
        self.at = put_digits(&mut self.bytes, self.at, n);
        Some(())
    }

    /// Puts a number in front, in decimal, with a minus where it is below zero, if there is
    /// capacity for twenty characters.
    #[inline(always)]
    pub fn prepend_signed(&mut self, n: i64) -> Option<()>
        ensures some { IfSome result (λ _. self.new ≡ signed_decimal n ++ self.old) }
        ensures none { IfNone result (self.new ≡ self.old) }
        ensures succeeds { length self.old + 20 ≤ 96 → IsSome result }
    {
        if self.at < 20 {
            return None;
        }
        let at = put_long(&mut self.bytes, self.at, n.unsigned_abs());
        if n >= 0 {
            self.at = at;
        } else {
            self.bytes[at - 1] = b'-';
            self.at = at - 1;
        }
        Some(())
    }

    /// Puts the last level of a name in front.
    #[inline(always)]
    fn prepend_level(&mut self, n: u32) -> Option<()>
        ensures some { IfSome result (λ _. self.new ≡ 46 ∷ decimal n ++ self.old) }
        ensures short { IfSome result (λ _. length self.new ≤ length self.old + 11) }
        ensures succeeds { length self.old + 11 ≤ 96 → IsSome result }
    {
        if self.at < 11 {
            return None;
        }
        let at = put_digits(&mut self.bytes, self.at, n);
        self.bytes[at - 1] = b'.';
        self.at = at - 1;
        Some(())
    }

    /// Puts levels in front, the last of these first. Some of them may stay where there is no
    /// capacity.
    #[inline(always)]
    fn prepend_levels(&mut self, numbers: &[u32]) -> Option<()>
        ensures some { IfSome result (λ _. self.new ≡ levels_text numbers.now ++ self.old) }
        ensures none { numbers.now ≡ [] → IsSome result × (self.new ≡ self.old) }
    {
        'levels: for n in numbers {
            self.prepend_level(*n)?;
        }
        Some(())
    }

    /// Puts levels that take a byte each in front, the last of these first. Some of them may stay
    /// where there is no capacity.
    // out of line: a line with a shorter name doesn't pay for its stack frame
    #[inline(never)]
    fn prepend_small_levels(&mut self, numbers: &[u8]) -> Option<()>
        ensures { IfSome result (λ _. self.new ≡ levels_text numbers.now ++ self.old) }
    {
        if self.prepend_digits(numbers) {
            return Some(());
        }
        let others = self.prepend_fours(numbers);
        'levels: for n in others {
            self.prepend_level(u32::from(*n))?;
        }
        Some(())
    }

    /// Puts levels of one digit each in front, all of them or none, and returns which: none where
    /// one has more digits, where they are too few, and where there is no capacity.
    #[inline(always)]
    fn prepend_digits(&mut self, numbers: &[u8]) -> bool
        ensures { self.new ≡ (if result then levels_text numbers.now ++ self.old else self.old) }
    {
        let wanted = numbers.len() * 2;
        if wanted > self.at {
            return false;
        }
        let put = put_digit_levels(&mut self.bytes, self.at, numbers);
        if put {
            self.at -= wanted;
        }
        put
    }

    /// Puts levels in front, four at once, as far as they have one digit each and there is
    /// capacity. Returns the others.
    #[inline(always)]
    fn prepend_fours<'a>(&mut self, numbers: &'a [u8]) -> &'a [u8]
        ensures { levels_text result.now ++ self.new ≡ levels_text numbers.now ++ self.old }
    {
        let mut left = numbers;
        'fours: while let [a, b, c, d, more @ ..] = left {
            if *a > 9 || *b > 9 || *c > 9 || *d > 9 {
                return left;
            }
            if self.prepend_four(*a, *b, *c, *d).is_none() {
                return left;
            }
            left = more;
        }
        left
    }

    /// Puts four levels of one digit each in front, the last of these first, if there is capacity.
    #[inline(always)]
    fn prepend_four(&mut self, a: u8, b: u8, c: u8, d: u8) -> Option<()>
        requires { (a < 10) × (b < 10) × (c < 10) × (d < 10) }
        ensures some { IfSome result (λ _. self.new ≡ levels_text (a ∷ b ∷ c ∷ d ∷ []) ++ self.old) }
        ensures none { IfNone result (self.new ≡ self.old) }
    {
        if self.at < 8 {
            return None;
        }
        put_digit_level(&mut self.bytes, self.at, a);
        put_digit_level(&mut self.bytes, self.at - 2, b);
        put_digit_level(&mut self.bytes, self.at - 4, c);
        put_digit_level(&mut self.bytes, self.at - 6, d);
        self.at -= 8;
        Some(())
    }

    /// Puts a name in front, if it has 16 levels at most and there is capacity for ten digits of
    /// each. Some levels may stay where there isn't.
    #[inline(always)]
    pub fn prepend_name(&mut self, name: &TaskName) -> Option<()>
        ensures some { IfSome result (λ _. self.new ≡ name_text name.now ++ self.old) }
        ensures root { name.now ≡ [] → length self.old < 96 → IsSome result }
    {
        if let Some(numbers) = name.short() {
            self.prepend_levels(numbers)?;
            return self.prepend("0");
        }
        if let Some(numbers) = name.few() {
            self.prepend_small_levels(numbers)?;
            return self.prepend("0");
        }
        let mut parts = name.parts();
        let run = parts.take_run();
        if run.as_slice().len() > LEVELS {
            return None;
        }
        let [] = parts.take_run().as_slice() else {
            return None;
        };
        self.prepend_levels(run.as_slice())?;
        self.prepend("0")
    }
}
