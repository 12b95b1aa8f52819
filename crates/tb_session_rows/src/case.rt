//! A stored session and what it is to write.

use crate::outcome::outcome;
use std::alloc::{AllocError, Global};
use std::rt::Files;
use std::sync::Wait;
use std::thread::Threads;
use std::{fs, io};
use tb_session::Settings;

/// Where the journal's limit is no number.
const ENTRIES: u32 = 100_000;

fn settings(limit: &str) -> Settings {
    let limit: u32 = limit.parse().unwrap_or(ENTRIES);
    Settings {
        workers: 4,
        limit: limit.clamp(1, 1_000_000),
    }
}

/// Whether these are the bytes that are wanted, or, where only the `last` ones are asked for, end with them.
fn is_met(got: &[u8], want: &[u8], last: bool) -> bool {
    if last {
        got.ends_with(want)
    } else {
        got == want
    }
}

/// The first line that differs, or `ok`.
fn compared(alloc: Global, got: &[u8], want: &[u8], last: bool) -> Result<String, AllocError> {
    if is_met(got, want, last) {
        return String::from_str(alloc, "ok");
    }
    let same = got
        .iter()
        .zip(want.iter())
        .take_while(|(a, b)| **a == **b)
        .count();
    let line = got.iter().take(same).filter(|b| **b == b'\n').count();
    format!(in alloc; "differs behind {line} lines")
}

/// Runs the case, and says whether it writes what is stored with it. Where the word `last` follows
/// the limit, what it writes has to end so, and what is in front of that may be anything.
pub fn tell<R: Files + AllocGlobal + Threads + Wait + Sync>(
    rt: &R,
    name: &str,
    limit: &str,
) -> io::Result<String> {
    let alloc = rt.alloc();
    let (limit, last) = match limit.split_once(' ') {
        Some((limit, word)) => (limit, word == "last"),
        None => (limit, false),
    };
    let session = fs::read(rt, format!(in alloc; "{name}.session")?)?;
    let want = fs::read(rt, format!(in alloc; "{name}.out")?)?;
    let got = outcome(rt, &session, settings(limit))?;
    Ok(compared(alloc, &got, &want, last)?)
}
