//! How a text falls into lines, and a line into words.

ghost use Rattle.std.specs.Prelude.{◌≡◌, ◌<◌, ◌≤◌, length, IfOk, OnOk, map, take, drop, suc, not};
ghost use Rattle.std.specs.List.{position_or_len};
ghost use Rattle.tb_read.specs.Text.{is_blank, is_line_feed, numbered, is_printed, begins_comment, begins_with, line_words, before_comment, is_text};

use std::alloc::{AllocError, Global};

fn is_blank(b: u8) -> bool
    ensures { result ≡ is_blank b }
{
    b == b'\t' || b == b'\r' || b == b' '
}

/// How many bytes lie in front of the first line feed.
fn line_len(bytes: &[u8]) -> usize
    ensures len { result ≡ position_or_len is_line_feed bytes.now }
    ensures within { result ≤ length bytes.now }
{
    bytes.iter().take_while(|b| **b != b'\n').count()
}

/// How many bytes lie in front of the first blank.
fn word_len(bytes: &[u8]) -> usize
    ensures len { result ≡ position_or_len is_blank bytes.now }
    ensures within { result ≤ length bytes.now }
{
    bytes.iter().take_while(|b| !is_blank(**b)).count()
}

/// The bytes after an index.
fn behind(bytes: &[u8], at: usize) -> &[u8]
    ensures { result.now ≡ drop (suc at) bytes.now }
{
    if at < bytes.len() {
        &bytes[at + 1..]
    } else {
        &[]
    }
}

/// The lines of a text by their numbers, without their line feeds. Index 0 has an empty one.
pub fn numbered(alloc: Global, text: &[u8]) -> Result<Vec<&[u8]>, AllocError>
    ensures { IfOk result (λ lines. map (λ line. line.now) lines.items ≡ numbered text.now) }
{
    let mut lines = Vec::new(alloc);
    let mut rest = text;
    lines.push(&rest[..0])?;
    while !rest.is_empty() {
        let at = line_len(rest);
        lines.push(&rest[..at])?;
        rest = behind(rest, at);
    }
    Ok(lines)
}

/// The bytes in front of the comment.
pub fn before_comment(line: &[u8]) -> &[u8]
    ensures { result.now ≡ before_comment line.now }
{
    let mut starts = true;
    for (at, b) in line.iter().enumerate() {
        if starts && *b == b'#' {
            return &line[..at];
        }
        starts = is_blank(*b);
    }
    line
}

fn begins_comment(bytes: &[u8]) -> bool
    ensures { result ≡ begins_comment bytes.now }
{
    match bytes {
        [] => false,
        [b, ..] => *b == b'#',
    }
}

/// Whether the first byte that isn't a blank is this one, as that of a line with a certain first
/// word is. It distinguishes most lines from such a line without looking for their words.
pub fn begins_with(line: &[u8], first: u8) -> bool
    ensures { result ≡ begins_with first line.now }
{
    let mut left = line;
    while let [b, rest @ ..] = left {
        if !is_blank(*b) {
            return *b == first;
        }
        left = rest;
    }
    false
}

/// How many bytes come before the first that isn't printed.
fn printed_len(bytes: &[u8]) -> usize
    ensures len { result ≡ position_or_len (λ b. not (is_printed b)) bytes.now }
    ensures within { result ≤ length bytes.now }
{
    bytes.iter().take_while(|b| 33 <= **b && **b <= 126).count()
}

/// The length of what comes before the first blank, and whether that is text. All its bytes are
/// printed but in a faulty line.
fn front(bytes: &[u8]) -> (usize, bool)
    ensures len { result.0 ≡ position_or_len is_blank bytes.now }
    ensures within { result.0 ≤ length bytes.now }
    ensures text { result.1 ≡ is_text (take result.0 bytes.now) }
{
    let printed = printed_len(bytes);
    if printed == bytes.len() {
        return (printed, true);
    }
    if is_blank(bytes[printed]) {
        return (printed, true);
    }
    let at = word_len(bytes);
    (at, is_text(&bytes[..at]))
}

/// Puts the words of a line, without its comment, into `words`, in place of what was there, and
/// returns whether all before the comment is text.
pub fn split<'a>(words: &mut Vec<&'a [u8]>, line: &'a [u8]) -> Result<bool, AllocError>
    ensures words { OnOk result (map (λ word. word.now) words.new.items ≡ line_words line.now) }
    ensures text { IfOk result (λ text. text ≡ is_text (before_comment line.now)) }
{
    words.clear();
    let mut text = true;
    let mut rest = line;
    while !rest.is_empty() {
        if begins_comment(rest) {
            return Ok(text);
        }
        let (at, is_text) = front(rest);
        if at > 0 {
            words.push(&rest[..at])?;
            text &= is_text;
        }
        rest = behind(rest, at);
    }
    Ok(text)
}

/// Whether each byte is of a text.
pub fn is_text(bytes: &[u8]) -> bool
    ensures { result ≡ is_text bytes.now }
{
    bytes
        .iter()
        .all(|b| is_blank(*b) || (32 <= *b && *b <= 126))
}

/// The words of a line, without its comment.
pub fn line_words(alloc: Global, line: &[u8]) -> Result<Vec<&[u8]>, AllocError>
    ensures { IfOk result (λ words. map (λ word. word.now) words.items ≡ line_words line.now) }
{
    let mut words = Vec::new(alloc);
    let _ = split(&mut words, line)?;
    Ok(words)
}
