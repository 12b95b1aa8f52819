//! Runs stored sessions over memory, and compares what each writes with what is stored with it.
//! Standard input has a line a case: its name, and the most entries of its journal. The case is
//! `NAME.session`, and what it is to write `NAME.out`. Where the word `last` is after these, it is
//! what the session is to write last: of a `go` of several workers no more is settled.
#![tactic(auto)]

mod case;
mod outcome;

use std::io;

fn main(rt: HostRuntime) -> io::Result<()> {
    for line in rt.lines(rt.alloc()) {
        let line = line?;
        let Some((name, limit)) = line.as_str().split_once(' ') else {
            println!(rt; "{line}: no limit")?;
            continue;
        };
        let told = case::tell(&rt, name, limit)?;
        println!(rt; "{name} {told}")?;
    }
    Ok(())
}
