//! A reader and a writer over memory, of which one call fails.

ghost use Rattle.std.specs.Prelude.{◌-◌, ◌<◌, ◌^◌};

use std::alloc::Global;
use std::sync::Wait;
use tb_taskcheck::{Failed, Halt, Outcome, Sink, Source, judge};

/// A source that hands out so many bytes at a time, of which the call with the number `fails_at`
/// fails, counted from 1.
#[derive(Drop)]
pub struct FailsAt<'a> {
    pub bytes: &'a [u8],
    pub piece: usize,
    pub calls: u64,
    pub fails_at: u64,
    pub failed: u64,
}

impl Source for FailsAt<'_> {
    ghost use Rattle.std.specs.Prelude.{Some};

    ghost left = { λ s. Some s.bytes.now };

    ghost failures = { λ s. s.failed };

    fn read(&mut self, buf: &mut [u8]) -> Result<usize, Failed> {
        self.calls = self.calls.saturating_add(1);
        if self.calls == self.fails_at {
            self.failed += 1;
            return Err(Failed);
        }
        let count = self.piece.max(1).min(self.bytes.len()).min(buf.len());
        let (now, later) = self.bytes.split_at(count);
        buf[..count].copy_from_slice(now);
        self.bytes = later;
        Ok(count)
    }
}

/// A source that never ends, and has no line feed.
#[derive(Drop)]
pub struct Endless {
    pub calls: u64,
    pub failed: u64,
}

impl Source for Endless {
    ghost use Rattle.std.specs.Prelude.{None};

    ghost left = { λ s. None };

    ghost failures = { λ s. s.failed };

    fn read(&mut self, buf: &mut [u8]) -> Result<usize, Failed> {
        self.calls = self.calls.saturating_add(1);
        buf.fill(b' ');
        Ok(buf.len())
    }
}

/// A sink that takes so many bytes in all, and then fails.
#[derive(Drop)]
pub struct Taken {
    pub bytes: Vec<u8>,
    pub room: usize,
    pub failed: u64,
}

impl Sink for Taken {
    ghost use Rattle.std.specs.Prelude.{Some};

    ghost taken = { λ s. Some s.bytes.items };

    ghost failures = { λ s. s.failed };

    fn write(&mut self, bytes: &[u8]) -> Result<usize, Failed> {
        let count = bytes.len().min(self.room);
        if count == 0 && !bytes.is_empty() {
            self.failed += 1;
            return Err(Failed);
        }
        if self.bytes.extend_from_slice(&bytes[..count]).is_err() {
            self.failed += 1;
            return Err(Failed);
        }
        self.room -= count;
        Ok(count)
    }
}

/// Whether the judgement of this source, over a sink with this capacity, writes this and ends so.
pub fn is_judged<R: Wait>(
    rt: &R,
    alloc: Global,
    mut source: FailsAt<'_>,
    room: usize,
    want: &str,
    end: Result<Outcome, Halt>,
) -> bool
    requires { source.failed < 2 ^ 64 - 1 }
{
    let mut sink = Taken {
        bytes: Vec::new(alloc),
        room,
        failed: 0,
    };
    let judged = judge(rt, alloc, &mut source, &mut sink);
    judged == end && sink.bytes.as_slice() == want.as_bytes()
}
