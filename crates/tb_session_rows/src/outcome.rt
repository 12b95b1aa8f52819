//! What a session over memory comes to.

use std::alloc::AllocError;
use std::sync::Wait;
use std::thread::Threads;
use tb_session::{CountedReader, CountedWriter, Settings, run};

/// What the session wrote, and last why it ended before its input, where it did.
pub fn outcome<R: AllocGlobal + Threads + Wait + Sync>(
    rt: &R,
    session: &[u8],
    settings: Settings,
) -> Result<Vec<u8>, AllocError> {
    let mut source = CountedReader {
        inner: session,
        failed: 0,
    };
    let mut sink = CountedWriter {
        inner: Vec::new(rt.alloc()),
        failed: 0,
        is_unread: false,
    };
    let ended = run(rt, rt.alloc(), &mut source, &mut sink, settings);
    let mut written = sink.inner;
    if let Err(halt) = ended {
        let told = format!(in rt.alloc(); "{halt}\n")?;
        written.extend_from_slice(told.as_bytes())?;
    }
    Ok(written)
}
