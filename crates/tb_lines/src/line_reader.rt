//! Lines of a source, in whatever pieces it hands them out.

ghost use Rattle.std.specs.Prelude.{ℕ, List, [], ◌∷◌, ◌++◌, ◌≡◌, ◌+◌, ◌-◌, ◌<◌, ◌≤◌, ◌^◌, OnOk, OnErr, IfOk, IsErrOf, length, take, drop, if◌then◌else◌, IsTrue, IsFalse, slice_index};
ghost use Rattle.std.specs.Io.KnownBytes.{Keeps, IsAtEnd, prepend_known};
ghost use Rattle.std.specs.List.{position_or_len};
ghost use Rattle.tb_read.specs.Text.{is_line_feed};
ghost use Rattle.tb_lines.specs.Lines.{IsUnbroken, GaveFront, GaveLine, TakesPiece, most_ahead};

use crate::line_stop::LineStop;
use crate::ports::{Failed, Source};
use std::alloc::AllocError;
use std::marker::Model;
use std::sync::Wait;

/// The bytes that one read may hand out.
const PIECE: usize = 8192;

/// Why no line was read.
#[derive(Clone, Copy, Debug, PartialEq, Eq)]
pub enum LineFault {
    Read,
    Memory,
}

/// What ended a line.
#[derive(Clone, Copy, Debug, PartialEq, Eq)]
pub enum LineEnd {
    /// A line feed.
    Feed,
    /// The end of what comes. The line is empty where nothing is after the last line feed.
    Input,
}

/// Bytes that were read and not yet used. Contracts see them as a list.
#[derive(Drop)]
pub struct LineReader {
    buffer: [u8; 8192],
    start: usize,
    end: usize,
}

impl Model for LineReader {
    ghost use Rattle.std.specs.Prelude.{List, ℕ, drop, take, ◌≤◌};

    ghost Value = { List ℕ };

    ghost view = { λ r. drop r.start (take r.end r.buffer) };

    ghost invariant = { λ r. (r.start ≤ r.end) × (r.end ≤ 8192) };
}

/// How many bytes are before the first line feed, or all where there is none.
fn line_len(bytes: &[u8]) -> usize
    ensures len { result ≡ position_or_len is_line_feed bytes.now }
    ensures within { result ≤ length bytes.now }
{
    bytes.iter().take_while(|b| **b != b'\n').count()
}

impl LineReader {
    /// A reader that holds no bytes yet.
    pub fn new() -> LineReader
        ensures { result ≡ [] }
    {
        LineReader {
            buffer: [0; PIECE],
            start: 0,
            end: 0,
        }
    }

    /// Reads more where nothing is held, and returns whether anything is held then.
    #[tactic(auto, using(crate::proofs::PieceLemmas::few_held))]
    fn fill<S: Source>(&mut self, source: &mut S) -> Result<bool, Failed>
        requires { S.failures source.old < 2 ^ 64 - 1 }
        ensures unread { Keeps (prepend_known self.old (S.left source.old))
            (prepend_known self.new (S.left source.new)) }
        ensures held { IfOk result (λ held. IsTrue held → 0 < length self.new) }
        ensures ended { IfOk result (λ held. IsFalse held
            → IsAtEnd (prepend_known self.new (S.left source.new))) }
        ensures ok { OnOk result (S.failures source.new ≡ S.failures source.old) }
        ensures err { OnErr result ((S.failures source.new ≡ S.failures source.old + 1)
            × (self.new ≡ [])) }
        ensures ahead { length self.new ≤ most_ahead }
    {
        if self.start < self.end {
            return Ok(true);
        }
        self.start = 0;
        self.end = 0;
        self.end = source.read(&mut self.buffer)?;
        Ok(self.end > 0)
    }

    /// Moves what is held, up to the first line feed, to the end of the line, and returns whether
    /// there was one.
    #[tactic(auto, using(crate::proofs::PieceLemmas::few_held))]
    fn take_piece(&mut self, line: &mut Vec<u8>) -> Result<bool, AllocError>
        ensures ok { IfOk result
            (λ found. TakesPiece self.old self.new line.old.items line.new.items found) }
        ensures err { OnErr result ((self.new ≡ self.old) × (line.new.items ≡ line.old.items)) }
        ensures ahead { length self.new ≤ most_ahead }
    {
        let held = &self.buffer[self.start..self.end];
        let len = line_len(held);
        line.extend_from_slice(&held[..len])?;
        if len < held.len() {
            self.start += len + 1;
            return Ok(true);
        }
        self.start = self.end;
        Ok(false)
    }

    /// Reads the next line into `line`, without its line feed.
    pub fn next_line<R: Wait, S: Source>(
        &mut self,
        rt: &R,
        source: &mut S,
        line: &mut Vec<u8>,
    ) -> Result<LineEnd, LineFault>
        requires { S.failures source.old < 2 ^ 64 - 1 }
        ensures line { GaveLine (prepend_known self.old (S.left source.old))
            (prepend_known self.new (S.left source.new)) line.new.items result }
        ensures ok { OnOk result (S.failures source.new ≡ S.failures source.old) }
        ensures memory { IsErrOf result LineFault.Memory
            → S.failures source.new ≡ S.failures source.old }
        ensures read { IsErrOf result LineFault.Read
            → (S.failures source.new ≡ S.failures source.old + 1) × (self.new ≡ []) }
        ensures ahead { length self.new ≤ most_ahead }
    {
        line.clear();
        'pieces: for _ in rt.forever() {
            match self.fill(source) {
                Ok(true) => {}
                Ok(false) => return Ok(LineEnd::Input),
                Err(_) => return Err(LineFault::Read),
            }
            match self.take_piece(line) {
                Ok(true) => return Ok(LineEnd::Feed),
                Ok(false) => {}
                Err(_) => return Err(LineFault::Memory),
            }
        }
        unreachable!()
    }
    /// Reads the next line into `line`, without its line feed, or the first of its bytes where more
    /// than `most` of them have none. So memory goes by `most`, however long the line is.
    pub fn next_line_within<R: Wait, S: Source>(
        &mut self,
        rt: &R,
        source: &mut S,
        line: &mut Vec<u8>,
        most: usize,
    ) -> Result<LineStop, LineFault>
        requires { S.failures source.old < 2 ^ 64 - 1 }
        ensures line { GaveFront most (prepend_known self.old (S.left source.old))
            (prepend_known self.new (S.left source.new)) line.new.items result }
        ensures few { length line.new.items ≤ most + most_ahead }
        ensures ok { OnOk result (S.failures source.new ≡ S.failures source.old) }
        ensures memory { IsErrOf result LineFault.Memory
            → S.failures source.new ≡ S.failures source.old }
        ensures read { IsErrOf result LineFault.Read
            → (S.failures source.new ≡ S.failures source.old + 1) × (self.new ≡ []) }
        ensures ahead { length self.new ≤ most_ahead }
    {
        line.clear();
        'pieces: for _ in rt.forever() {
            match self.fill(source) {
                Ok(true) => {}
                Ok(false) => return Ok(LineStop::Input),
                Err(_) => return Err(LineFault::Read),
            }
            match self.take_piece(line) {
                Ok(true) => return Ok(LineStop::Feed),
                Ok(false) => {}
                Err(_) => return Err(LineFault::Memory),
            }
            if line.len() > most {
                return Ok(LineStop::Long);
            }
        }
        unreachable!()
    }
}
