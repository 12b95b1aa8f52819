//! Reads program texts, and returns the fault or the program of each.
#![tactic(auto)]

mod statement_text;
mod texts;

use std::io;
use std::io::Read;

fn main(rt: HostRuntime) -> io::Result<()> {
    let mut bytes = Vec::new(rt.alloc());
    rt.stdin().read_to_end(&mut bytes)?;
    for text in texts::texts(rt.alloc(), &bytes)? {
        rt.print(texts::answer(rt.alloc(), text)?.as_str())?;
    }
    Ok(())
}
