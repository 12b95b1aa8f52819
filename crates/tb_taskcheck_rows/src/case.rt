//! A stored run text and what it comes to.

use crate::outcome::outcome;
use std::alloc::{AllocError, Global};
use std::rt::Files;
use std::sync::Wait;
use std::{fs, io};

/// What differs, or `ok`.
fn compared(
    alloc: Global,
    got: &[u8],
    want: &[u8],
    status: u8,
    wanted: &str,
) -> Result<String, AllocError> {
    if got != want {
        let same = got
            .iter()
            .zip(want.iter())
            .take_while(|(a, b)| **a == **b)
            .count();
        return format!(in alloc; "differs at byte {same}");
    }
    if wanted.parse() != Ok(status) {
        return format!(in alloc; "has the status {status}");
    }
    String::from_str(alloc, "ok")
}

/// Judges the text, and says whether its report and its status are those that are wanted.
pub fn tell<R: Files + AllocGlobal + Wait>(rt: &R, name: &str, wanted: &str) -> io::Result<String> {
    let alloc = rt.alloc();
    let text = fs::read(rt, format!(in alloc; "{name}.run")?)?;
    let want = fs::read(rt, format!(in alloc; "{name}.out")?)?;
    let (got, status) = outcome(rt, &text)?;
    Ok(compared(alloc, &got, &want, status, wanted)?)
}
