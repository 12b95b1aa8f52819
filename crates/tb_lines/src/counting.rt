//! A `Source` and a `Sink` of any reader and writer of std.

ghost use Rattle.std.specs.Prelude.{◌≡◌};

use crate::ports::{Failed, Sink, Source};
use std::io::{ErrorKind, Read, Write};

/// A reader, and how many of its calls failed.
#[derive(Drop)]
pub struct CountedReader<R> {
    pub inner: R,
    pub failed: u64,
}

impl<R: Read> Source for CountedReader<R> {
    ghost left = { λ c. R.remaining c.inner };

    ghost failures = { λ c. c.failed };

    fn read(&mut self, buf: &mut [u8]) -> Result<usize, Failed> {
        match self.inner.read(buf) {
            Ok(count) => Ok(count),
            Err(_) => {
                self.failed += 1;
                Err(Failed)
            }
        }
    }
}

/// A writer, and how many of its calls failed. A reply reaches its reader at once only where the
/// writer holds nothing back, as the standard output of a `HostRuntime` does.
#[derive(Drop)]
pub struct CountedWriter<W> {
    pub inner: W,
    pub failed: u64,
    /// Whether a call failed because nobody reads any more what is written, as at a closed pipe.
    pub is_unread: bool,
}

impl<W: Write> Sink for CountedWriter<W> {
    ghost taken = { λ c. W.contents c.inner };

    ghost failures = { λ c. c.failed };

    fn write(&mut self, bytes: &[u8]) -> Result<usize, Failed> {
        match self.inner.write(bytes) {
            Ok(count) if count > 0 || bytes.is_empty() => Ok(count),
            outcome => {
                self.failed += 1;
                if let Err(error) = outcome {
                    self.is_unread = error.kind() == ErrorKind::BrokenPipe;
                }
                Err(Failed)
            }
        }
    }
}
