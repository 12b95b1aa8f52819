//! Judges stored run texts over memory, and compares each report with what is stored with it.
//! Standard input has a line a case: its name, and the exit status that is wanted. The text is
//! `NAME.run`, and its report, or its fault, `NAME.out`.
#![tactic(auto)]

mod case;
mod outcome;

use std::io;

fn main(rt: HostRuntime) -> io::Result<()> {
    for line in rt.lines(rt.alloc()) {
        let line = line?;
        let Some((name, status)) = line.as_str().split_once(' ') else {
            println!(rt; "{line}: no status")?;
            continue;
        };
        let told = case::tell(&rt, name, status)?;
        println!(rt; "{name} {told}")?;
    }
    Ok(())
}
