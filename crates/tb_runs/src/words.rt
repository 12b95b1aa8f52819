//! The words of a line, taken from the left.

ghost use Rattle.std.specs.Prelude.{◌≡◌, ◌≤◌, ◌∷◌, [], List, ℕ, IfSome, IfNone, drop, length, suc};
ghost use Rattle.std.specs.List.{position_or_len};
ghost use Rattle.tb_read.specs.Text.{is_blank, begins_comment, line_words};

use std::marker::Model;

/// The words of a line that are left, without its comment. They are found in place, one when it is
/// asked for.
#[derive(Drop)]
pub struct Words<'a> {
    rest: &'a [u8],
}

impl<'a> Model for Words<'a> {
    ghost use Rattle.std.specs.Prelude.{List, ℕ};
    ghost use Rattle.tb_read.specs.Text.{line_words};

    ghost Value = { List (List ℕ) };

    ghost view = { λ w. line_words w.rest.now };
}

#[inline(always)]
pub fn is_blank(b: u8) -> bool
    ensures { result ≡ is_blank b }
{
    b == b' ' || b == b'\t' || b == b'\r'
}

/// How many bytes come before the first blank.
#[inline(always)]
fn word_len(bytes: &[u8]) -> usize
    ensures len { result ≡ position_or_len is_blank bytes.now }
    ensures within { result ≤ length bytes.now }
{
    bytes.iter().take_while(|b| !is_blank(**b)).count()
}

fn begins_comment(bytes: &[u8]) -> bool
    ensures { result ≡ begins_comment bytes.now }
{
    match bytes {
        [] => false,
        [b, ..] => *b == b'#',
    }
}

/// The bytes after an index.
pub fn behind(bytes: &[u8], at: usize) -> &[u8]
    ensures { result.now ≡ drop (suc at) bytes.now }
{
    if at < bytes.len() {
        &bytes[at + 1..]
    } else {
        &[]
    }
}

/// The bytes from an index on.
pub fn from(bytes: &[u8], at: usize) -> &[u8]
    requires { at ≤ length bytes.now }
    ensures { result.now ≡ drop at bytes.now }
{
    &bytes[at..]
}

impl<'a> Words<'a> {
    /// The words of a line, all of them left.
    pub fn of(line: &'a [u8]) -> Words<'a>
        ensures { result ≡ line_words line.now }
    {
        Words { rest: line }
    }

    /// The bytes of the line that are left.
    #[inline(always)]
    pub fn bytes(&self) -> &'a [u8]
        ensures { line_words result.now ≡ self.now }
    {
        self.rest
    }

    /// Takes the next word.
    pub fn next(&mut self) -> Option<&'a [u8]>
        ensures some { IfSome result (λ word. self.old ≡ word.now ∷ self.new) }
        ensures none { IfNone result ((self.old ≡ []) × (self.new ≡ [])) }
    {
        let mut rest = self.rest;
        while !rest.is_empty() {
            if begins_comment(rest) {
                break;
            }
            let at = word_len(rest);
            if at > 0 {
                self.rest = behind(rest, at);
                return Some(&rest[..at]);
            }
            rest = behind(rest, at);
        }
        self.rest = &[];
        None
    }

    /// The next word, which stays.
    pub fn peek(&self) -> Option<&'a [u8]>
        ensures some { IfSome result (λ word. (ws : List (List ℕ)) × (self.now ≡ word.now ∷ ws)) }
        ensures none { IfNone result (self.now ≡ []) }
    {
        Words { rest: self.rest }.next()
    }
}
