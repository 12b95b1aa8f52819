//! What a run text over memory comes to.

use std::alloc::AllocError;
use std::sync::Wait;
use tb_taskcheck::{CountedReader, CountedWriter, judge};

/// What was written, and last why no report was, where none was; and the exit status.
pub fn outcome<R: AllocGlobal + Wait>(rt: &R, text: &[u8]) -> Result<(Vec<u8>, u8), AllocError> {
    let mut source = CountedReader {
        inner: text,
        failed: 0,
    };
    let mut sink = CountedWriter {
        inner: Vec::new(rt.alloc()),
        failed: 0,
        is_unread: false,
    };
    let judged = judge(rt, rt.alloc(), &mut source, &mut sink);
    let mut written = sink.inner;
    match judged {
        Ok(outcome) => Ok((written, outcome.status())),
        Err(halt) => {
            let told = format!(in rt.alloc(); "{halt}\n")?;
            written.extend_from_slice(told.as_bytes())?;
            Ok((written, halt.status()))
        }
    }
}
