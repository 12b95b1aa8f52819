//! A reader and a writer over memory, of which one call fails.

ghost use Rattle.std.specs.Prelude.{◌≡◌, ◌≤◌, ◌<◌, ◌-◌, ◌^◌};

use std::alloc::Global;
use std::sync::Wait;
use std::test::Fail;
use std::thread::Threads;
use tb_session::{Failed, Halt, Settings, Sink, Source, run};

/// A source that hands out so many bytes at a time, of which the call with the number `fails_at`
/// fails, counted from 1.
#[derive(Drop)]
pub struct FailsAt<'a> {
    pub bytes: &'a [u8],
    pub piece: usize,
    pub calls: u64,
    pub fails_at: u64,
    pub failed: u64,
}

impl Source for FailsAt<'_> {
    ghost use Rattle.std.specs.Prelude.{Some};

    ghost left = { λ s. Some s.bytes.now };

    ghost failures = { λ s. s.failed };

    fn read(&mut self, buf: &mut [u8]) -> Result<usize, Failed> {
        self.calls = self.calls.saturating_add(1);
        if self.calls == self.fails_at {
            self.failed += 1;
            return Err(Failed);
        }
        let count = self.piece.max(1).min(self.bytes.len()).min(buf.len());
        let (now, later) = self.bytes.split_at(count);
        buf[..count].copy_from_slice(now);
        self.bytes = later;
        Ok(count)
    }
}

/// A sink that takes so many bytes in all, and then fails.
#[derive(Drop)]
pub struct Taken {
    bytes: Vec<u8>,
    room: usize,
    calls: u64,
    failed: u64,
}

impl Sink for Taken {
    ghost use Rattle.std.specs.Prelude.{Some};

    ghost taken = { λ s. Some s.bytes.items };

    ghost failures = { λ s. s.failed };

    fn write(&mut self, bytes: &[u8]) -> Result<usize, Failed> {
        self.calls = self.calls.saturating_add(1);
        let count = bytes.len().min(self.room);
        if count == 0 && !bytes.is_empty() {
            self.failed += 1;
            return Err(Failed);
        }
        if self.bytes.extend_from_slice(&bytes[..count]).is_err() {
            self.failed += 1;
            return Err(Failed);
        }
        self.room -= count;
        Ok(count)
    }
}

/// A source of all of the text at once.
pub fn whole(bytes: &[u8]) -> FailsAt<'_>
    ensures { result.failed ≡ 0 }
{
    FailsAt {
        bytes,
        piece: 100_000,
        calls: 0,
        fails_at: 0,
        failed: 0,
    }
}

/// What a session of this source writes over a sink with this capacity, in how many calls, and how
/// it ends.
pub fn written<R: Threads + Wait + Sync>(
    rt: &R,
    alloc: Global,
    mut source: FailsAt<'_>,
    room: usize,
    limit: u32,
) -> (Vec<u8>, u64, Option<Halt>)
    requires failed { source.failed < 2 ^ 64 - 1 }
    requires some { 1 ≤ limit }
    requires few { limit ≤ 1000000 }
{
    let mut sink = Taken {
        bytes: Vec::new(alloc),
        room,
        calls: 0,
        failed: 0,
    };
    let settings = Settings { workers: 4, limit };
    let got = run(rt, alloc, &mut source, &mut sink, settings);
    (sink.bytes, sink.calls, got.err())
}

/// Whether a session of this source, over a sink with this capacity, writes this and ends so.
pub fn is_session<R: Threads + Wait + Sync>(
    rt: &R,
    alloc: Global,
    source: FailsAt<'_>,
    room: usize,
    limit: u32,
    want: &str,
    halt: Option<Halt>,
) -> bool
    requires failed { source.failed < 2 ^ 64 - 1 }
    requires some { 1 ≤ limit }
    requires few { limit ≤ 1000000 }
{
    let (bytes, _, end) = written(rt, alloc, source, room, limit);
    end == halt && bytes.as_slice() == want.as_bytes()
}

pub const ROOT_ALONE: &[u8] = b"cells 1\nbody main 0\nstore 0 7\nprint 7\nend\n";

/// A session of the program `store 0 7`, `print 7`, with these commands.
pub fn with_commands(alloc: Global, commands: &str) -> Result<Vec<u8>, Fail> {
    let mut text = Vec::from_slice(alloc, ROOT_ALONE)?;
    text.extend_from_slice(b"---\n")?;
    text.extend_from_slice(commands.as_bytes())?;
    Ok(text)
}

/// Whether a session of this text, whose `go` may have four workers, ends so.
pub fn ends_with<R: Threads + Wait + Sync>(rt: &R, alloc: Global, text: &[u8], want: &str) -> bool {
    let mut source = whole(text);
    let mut sink = Taken {
        bytes: Vec::new(alloc),
        room: 100_000,
        calls: 0,
        failed: 0,
    };
    let settings = Settings {
        workers: 4,
        limit: 1000,
    };
    let got = run(rt, alloc, &mut source, &mut sink, settings);
    got.is_ok() && sink.bytes.as_slice().ends_with(want.as_bytes())
}
