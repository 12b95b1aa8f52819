//! The bodies of the whole text, by their names.

ghost use Rattle.std.specs.Prelude.{◌≡◌, List, [], ◌∷◌, ◌++◌, ℕ, map, IfOk, OnOk};
ghost use Rattle.std.specs.Option.{option_to_list, option_map};
ghost use Rattle.tb_read.specs.Headings.{params_of, is_heading, heading_in, headings_from, heading_of};
ghost use Rattle.tb_read.specs.Text.{line_words};

use crate::text::{begins_with, line_words};
use crate::word::{is_name, number, same_word, word_at};
use std::alloc::{AllocError, Global};
use std::collections::HashMap;
use std::marker::Model;

/// What a line that begins a body says besides its name.
#[derive(Clone, Copy, Debug, Drop, PartialEq, Eq)]
pub struct Heading {
    pub line: usize,
    pub params: u8,
}

/// The first heading of each name.
#[derive(Drop)]
pub struct Headings<'a> {
    by_name: HashMap<&'a [u8], Heading>,
}

impl<'a> Model for Headings<'a> {
    ghost use Rattle.std.specs.Prelude.{List, ℕ, map};
    ghost use Rattle.tb_read.specs.declared.heading.Heading.{Heading};

    ghost Value = { List (List ℕ × Heading) };

    ghost view = { λ h. map (λ e. (e.0.now, e.1)) h.by_name.entries };
}

fn params_of(number: Option<i64>) -> Option<u8>
    ensures { result ≡ params_of number }
{
    match number {
        Some(params) if 0 <= params && params <= 16 => Some(params as u8),
        _ => None,
    }
}

impl<'a> Headings<'a> {
    /// No headings. Takes no memory.
    fn new(alloc: Global) -> Headings<'a>
        ensures { result ≡ [] }
    {
        Headings {
            by_name: HashMap::new(alloc),
        }
    }

    /// The first heading of the name.
    pub fn get(&self, name: &[u8]) -> Option<Heading>
        ensures { result ≡ heading_of self.now name.now }
    {
        self.by_name.get(name).copied()
    }

    /// Adds a heading after the others.
    fn insert(&mut self, name: &'a [u8], heading: Heading) -> Result<(), AllocError>
        ensures { OnOk result ((other : List ℕ) → heading_of self.new other ≡ heading_of (self.old ++ (name.now, heading) ∷ []) other) }
    {
        if !self.by_name.contains_key(name) {
            self.by_name.insert(name, heading)?;
        }
        Ok(())
    }

    /// Adds the line's heading after the others, where it has one.
    fn add(&mut self, alloc: Global, line: usize, text: &'a [u8]) -> Result<(), AllocError>
        ensures { OnOk result ((other : List ℕ) → heading_of self.new other ≡ heading_of (self.old ++ option_to_list (heading_in line (line_words text.now))) other) }
    {
        if !begins_with(text, b'b') {
            return Ok(());
        }
        match heading_in(line, &line_words(alloc, text)?) {
            Some((name, heading)) => self.insert(name, heading),
            None => Ok(()),
        }
    }
}

/// Whether the words are `body`, a name and a number.
fn is_heading(words: &[&[u8]]) -> bool
    ensures { result ≡ is_heading (map (λ word. word.now) words.now) }
{
    words.len() == 3 && same_word(word_at(words, 0), b"body") && is_name(word_at(words, 1))
}

/// The name and the heading in these words.
fn heading_in<'a>(line: usize, words: &[&'a [u8]]) -> Option<(&'a [u8], Heading)>
    ensures { option_map (λ e. (e.0.now, e.1)) result ≡ heading_in line (map (λ word. word.now) words.now) }
{
    let name = word_at(words, 1);
    if !is_heading(words) {
        return None;
    }
    match params_of(number(word_at(words, 2))) {
        Some(params) => Some((name, Heading { line, params })),
        None => None,
    }
}

/// The bodies of all these lines.
pub fn headings_of<'a>(alloc: Global, lines: &[&'a [u8]]) -> Result<Headings<'a>, AllocError>
    ensures { IfOk result (λ h. (name : List ℕ) → heading_of h name ≡ heading_of (headings_from 0 (map (λ line. line.now) lines.now)) name) }
{
    let mut headings = Headings::new(alloc);
    for (line, text) in lines.iter().enumerate() {
        headings.add(alloc, line, text)?;
    }
    Ok(headings)
}
