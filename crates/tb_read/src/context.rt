//! What the lines in front of a line say, and the fault of a line after them.

ghost use Rattle.std.specs.Prelude.{◌≡◌, ℕ, List, ◌++◌, ◌∷◌, [], ◌<◌, ◌≤◌, ◌==◌, drop, length, map, reverse, slice_get, Some, IfOk, OnOk, if◌then◌else◌, IsTrue, string_bytes};
ghost use Rattle.std.specs.List.{list_all};
ghost use Rattle.tb_read.specs.Text.{is_text};
ghost use Rattle.tb_read.specs.Context.{number_at, is_below, is_above, is_some_number, cell_at, was_given, is_outside, was_headed, is_negative, unknown_body, is_miscalled, arity, arity_behind, is_turning, no_cells, cell_range, is_open, nesting, duplicate, too_large, is_second_cells, fault_behind, last_fault, taken, start, blank_cells, with_cell, blocks_behind};
ghost use Rattle.tb_read.specs.declared.fault.FaultKind.TheVariants.{NoCells, UnknownWord};
ghost use Rattle.tb_read.specs.declared.head.Head.TheVariants.{Body as ABody};
ghost use Rattle.tb_read.specs.Bodies.{named};
ghost use Rattle.tb_read.specs.declared.block.Block.{Block};
ghost use Rattle.tb_read.specs.Headings.{heading_of};

use crate::block::Block;
use crate::body::Body;
use crate::clauses::{argument_count, clause_words, is_broken, item_count};
use crate::fault::FaultKind;
use crate::grammar::{is_miscounted, misplaced};
use crate::head::Head;
use crate::heading::{Heading, Headings};
use crate::stack::{cut, put, top};
use crate::word::{number, same_word, word_at};
use std::alloc::{AllocError, Global};
use std::marker::Model;

/// What the lines so far say: whether one had words, the number that a line gave each cell, the
/// bodies, and the open blocks, the innermost last.
#[derive(Drop)]
pub struct Lines {
    begun: bool,
    cells: Vec<Option<i64>>,
    bodies: Vec<Body>,
    blocks: Vec<Block>,
}

impl Model for Lines {
    ghost use Rattle.std.specs.Prelude.{◌≤◌, length, map, reverse};
    ghost use Rattle.tb_read.specs.Context.{Context};
    ghost use Rattle.tb_read.specs.Bodies.{named};

    ghost Value = { Context };

    ghost view = { λ l. record { begun = l.begun; cells = l.cells.items; bodies = map named l.bodies.items; open_blocks = reverse l.blocks.items } };

    ghost invariant = { λ l. length l.cells.items ≤ 65536 };
}

fn number_at(words: &[&[u8]], at: usize) -> Option<i64>
    ensures { result ≡ number_at (map (λ word. word.now) words.now) at }
{
    number(word_at(words, at))
}

fn is_below(found: Option<i64>, least: i64) -> bool
    ensures { result ≡ is_below found least }
{
    match found {
        Some(x) => x < least,
        None => false,
    }
}

fn is_above(found: Option<i64>, most: i64) -> bool
    ensures { result ≡ is_above found most }
{
    match found {
        Some(x) => most < x,
        None => false,
    }
}

fn is_some_number(found: Option<i64>) -> bool
    ensures { result ≡ is_some_number found }
{
    match found {
        Some(x) => x != 0,
        None => false,
    }
}

/// What a line gave a cell, where there is such a cell.
fn cell_at(cells: &[Option<i64>], found: Option<i64>) -> Option<Option<i64>>
    ensures { result ≡ cell_at cells.now found }
{
    match found {
        Some(x) => match usize::try_from(x) {
            Ok(at) => cells.get(at).copied(),
            Err(_) => None,
        },
        None => None,
    }
}

fn was_headed(line: usize, heading: Option<Heading>) -> bool
    ensures { result ≡ was_headed line heading }
{
    match heading {
        Some(heading) => heading.line < line,
        None => false,
    }
}

fn is_negative(head: Head, words: &[&[u8]]) -> bool
    ensures { result ≡ is_negative head (map (λ word. word.now) words.now) }
{
    match head {
        Head::Cells => is_below(number_at(words, 0), 0),
        Head::Body => is_below(number_at(words, 1), 0),
        _ => false,
    }
}

fn unknown_body(headings: &Headings<'_>, head: Head, words: &[&[u8]]) -> bool
    ensures { (line : ℕ) → result ≡ unknown_body (record { line = line; heading = heading_of headings.now }) head (map (λ word. word.now) words.now) }
{
    match (head, words) {
        (Head::Task, [name, ..]) => headings.get(name).is_none(),
        _ => false,
    }
}

/// Whether a task has other than its body's count of arguments.
fn is_miscalled(heading: Option<Heading>, args: usize) -> bool
    ensures { result ≡ is_miscalled heading args }
{
    match heading {
        Some(heading) => args != heading.params as usize,
        None => false,
    }
}

fn arity_behind(headings: &Headings<'_>, head: Head, words: &[&[u8]]) -> bool
    ensures { (line : ℕ) → result ≡ arity_behind (record { line = line; heading = heading_of headings.now }) head (map (λ word. word.now) words.now) }
{
    match head {
        Head::Body => {
            same_word(word_at(words, 0), b"main") && is_some_number(number_at(words, 1))
        }
        Head::Task => match words {
            [] => false,
            [name, rest @ ..] => {
                is_miscalled(headings.get(name), argument_count(rest))
                    || is_broken(false, clause_words(rest))
            }
        },
        Head::Taskwait => is_broken(true, words),
        _ => false,
    }
}

fn arity(headings: &Headings<'_>, head: Head, words: &[&[u8]]) -> bool
    ensures { (line : ℕ) → result ≡ arity (record { line = line; heading = heading_of headings.now }) head (map (λ word. word.now) words.now) }
{
    is_miscounted(head, words.len()) || arity_behind(headings, head, words)
}

/// Whether an `else` may follow in this block.
fn is_turning(block: Option<Block>) -> bool
    ensures { (blocks : List Block) → block ≡ slice_get blocks 0 → result ≡ is_turning blocks }
{
    match block {
        Some(Block::Tested) => true,
        _ => false,
    }
}

/// As many cells as the `cells` line says, up to 65536, none of which was given a number; no cells
/// where it says no number, or one below 0.
fn blank_cells(alloc: Global, found: Option<i64>) -> Result<Vec<Option<i64>>, AllocError>
    ensures cells { IfOk result (λ cells. cells.items ≡ blank_cells found) }
    ensures few { IfOk result (λ cells. length cells.items ≤ 65536) }
{
    match found {
        Some(x) => match usize::try_from(x) {
            Ok(count) => vec![in alloc; None; count.min(65536)],
            Err(_) => Ok(Vec::new(alloc)),
        },
        None => Ok(Vec::new(alloc)),
    }
}

/// Gives a cell its first value.
fn give(cells: &mut Vec<Option<i64>>, found: Option<i64>, first: Option<i64>)
    ensures cells { cells.new.items ≡ with_cell cells.old.items found first }
    ensures count { length cells.new.items ≡ length cells.old.items }
{
    if let Some(x) = found {
        if let Ok(at) = usize::try_from(x) {
            if at < cells.len() {
                cells[at] = first;
            }
        }
    }
}

/// Opens and closes what a line with this first word does, other than a body's.
fn pass(blocks: &mut Vec<Block>, line: u32, head: Head) -> Result<(), AllocError>
    ensures { OnOk result (reverse blocks.new.items ≡ blocks_behind line head (reverse blocks.old.items)) }
{
    match head {
        Head::Body => put(blocks, Block::Bodied { line }),
        Head::Taskgroup => put(blocks, Block::Grouped),
        Head::If => put(blocks, Block::Tested),
        Head::While => put(blocks, Block::Looped { line }),
        Head::Else => {
            cut(blocks);
            put(blocks, Block::Turned)
        }
        Head::End => {
            cut(blocks);
            Ok(())
        }
        _ => Ok(()),
    }
}

impl Lines {
    /// In front of the first line. Takes no memory.
    pub fn new(alloc: Global) -> Lines
        ensures { result ≡ start }
    {
        Lines {
            begun: false,
            cells: Vec::new(alloc),
            bodies: Vec::new(alloc),
            blocks: Vec::new(alloc),
        }
    }

    /// The cells and the bodies.
    pub fn into_parts(self) -> (Vec<Option<i64>>, Vec<Body>)
        ensures cells { result.0.items ≡ self.cells }
        ensures bodies { map named result.1.items ≡ self.bodies }
        ensures few { length result.0.items ≤ 65536 }
    {
        (self.cells, self.bodies)
    }

    fn is_open(&self) -> bool
        ensures { result ≡ is_open self.now }
    {
        !self.blocks.is_empty()
    }

    /// The innermost open block.
    pub fn innermost(&self) -> Option<Block>
        ensures { result ≡ slice_get self.now.open_blocks 0 }
    {
        top(&self.blocks)
    }

    fn no_cells(&self, head: Head) -> bool
        ensures { result ≡ no_cells self.now head }
    {
        match head {
            Head::Cells => false,
            _ => !self.begun,
        }
    }

    fn cell_range(&self, head: Head, words: &[&[u8]]) -> bool
        ensures { result ≡ cell_range self.now head (map (λ word. word.now) words.now) }
    {
        match head {
            Head::Cell => {
                let cell = number_at(words, 0);
                cell.is_some() && cell_at(&self.cells, cell).is_none()
            }
            _ => false,
        }
    }

    fn nesting(&self, head: Head) -> bool
        ensures { result ≡ nesting self.now head }
    {
        match head {
            Head::Cells => self.begun,
            Head::Cell => self.is_open() || !self.bodies.is_empty(),
            Head::Body => self.is_open(),
            Head::Else => !is_turning(self.innermost()),
            _ => !self.is_open(),
        }
    }

    fn duplicate(&self, line: usize, headings: &Headings<'_>, head: Head, words: &[&[u8]]) -> bool
        ensures { result ≡ duplicate (record { line = line; heading = heading_of headings.now }) self.now head (map (λ word. word.now) words.now) }
    {
        match head {
            Head::Cell => match cell_at(&self.cells, number_at(words, 0)) {
                Some(Some(_)) => true,
                _ => false,
            },
            Head::Body => was_headed(line, headings.get(word_at(words, 0))),
            _ => false,
        }
    }

    fn too_large(&self, head: Head, words: &[&[u8]]) -> bool
        ensures { result ≡ too_large self.now head (map (λ word. word.now) words.now) }
    {
        match head {
            Head::Cells => is_above(number_at(words, 0), 65536),
            Head::Body => is_above(number_at(words, 1), 16) || 1024 <= self.bodies.len(),
            Head::Task => match words {
                [] => false,
                [_, rest @ ..] => 64 < item_count(false, clause_words(rest)),
            },
            Head::Taskwait => 64 < item_count(true, words),
            _ => false,
        }
    }

    fn is_second_cells(&self, head: Head) -> bool
        ensures { result ≡ is_second_cells self.now head }
    {
        match head {
            Head::Cells => self.begun && !self.is_open(),
            _ => false,
        }
    }

    /// The first fault of a line with this first word, by the order of the numbers.
    pub fn fault(
        &self,
        line: usize,
        headings: &Headings<'_>,
        head: Head,
        words: &[&[u8]],
    ) -> Option<FaultKind>
        ensures { result ≡ fault_behind (record { line = line; heading = heading_of headings.now }) self.now (Some head) (map (λ word. word.now) words.now) }
    {
        let found = misplaced(head, words);
        if self.is_second_cells(head) {
            Some(FaultKind::Duplicate)
        } else if self.no_cells(head) {
            Some(FaultKind::NoCells)
        } else if found.bad_number || is_negative(head, words) {
            Some(FaultKind::BadNumber)
        } else if self.cell_range(head, words) {
            Some(FaultKind::CellRange)
        } else if found.unknown_word {
            Some(FaultKind::UnknownWord)
        } else if unknown_body(headings, head, words) {
            Some(FaultKind::UnknownBody)
        } else if arity(headings, head, words) {
            Some(FaultKind::Arity)
        } else if self.nesting(head) {
            Some(FaultKind::Nesting)
        } else if self.duplicate(line, headings, head, words) {
            Some(FaultKind::Duplicate)
        } else if found.register {
            Some(FaultKind::Register)
        } else if self.too_large(head, words) {
            Some(FaultKind::TooLarge)
        } else if found.depend_type {
            Some(FaultKind::DependType)
        } else {
            None
        }
    }

    /// The fault of a line whose first word is none that a line can have.
    pub fn unknown_head(&self) -> FaultKind
        ensures { result ≡ (if self.now.begun then UnknownWord else NoCells) }
    {
        if self.begun {
            FaultKind::UnknownWord
        } else {
            FaultKind::NoCells
        }
    }

    /// The fault of a text all of whose lines were accepted.
    pub fn last_fault(&self, line: usize, headings: &Headings<'_>) -> Option<FaultKind>
        ensures { result ≡ last_fault (record { line = line; heading = heading_of headings.now }) self.now }
    {
        if !self.begun {
            Some(FaultKind::NoCells)
        } else if self.is_open() {
            Some(FaultKind::Nesting)
        } else if headings.get(b"main").is_some() {
            None
        } else {
            Some(FaultKind::NoMain)
        }
    }

    /// Takes a line with this first word in. An `Err` may have taken a part of it.
    pub fn accept(
        &mut self,
        alloc: Global,
        line: u32,
        head: Head,
        words: &[&[u8]],
    ) -> Result<(), AllocError>
        requires { IsTrue (list_all is_text (map (λ word. word.now) words.now)) }
        ensures { OnOk result (self.new ≡ taken line self.old (Some head) (map (λ word. word.now) words.now)) }
    {
        self.begun = true;
        match head {
            Head::Cells => {
                self.cells = blank_cells(alloc, number_at(words, 0))?;
                Ok(())
            }
            Head::Cell => {
                give(&mut self.cells, number_at(words, 0), number_at(words, 1));
                Ok(())
            }
            Head::Body => self.begin_body(alloc, line, word_at(words, 0)),
            _ => pass(&mut self.blocks, line, head),
        }
    }

    fn begin_body(&mut self, alloc: Global, line: u32, name: &[u8]) -> Result<(), AllocError>
        requires { IsTrue (is_text name.now) }
        ensures { OnOk result (self.new ≡ record self.old { bodies = self.old.bodies ++ (record { name = name.now; line = line }) ∷ []; open_blocks = blocks_behind line ABody self.old.open_blocks }) }
    {
        let name = text_of(alloc, name)?;
        self.bodies.push(Body { name, line })?;
        put(&mut self.blocks, Block::Bodied { line })
    }
}

/// The bytes as a text of its own.
#[tactic(auto, using(crate::proofs::TextLemmas::text_is_utf8))]
fn text_of(alloc: Global, bytes: &[u8]) -> Result<String, AllocError>
    requires { IsTrue (is_text bytes.now) }
    ensures { IfOk result (λ text. string_bytes text ≡ bytes.now) }
{
    match str::from_utf8(bytes) {
        Ok(text) => String::from_str(alloc, text),
        Err(_) => unreachable!(),
    }
}
