//! Runs small histories through the plain definitions: lines of steps and questions come in, answers
//! go out.
#![tactic(auto)]

mod line;
mod run;

use run::Run;
use std::io;

fn main(rt: HostRuntime) -> io::Result<()> {
    let mut run = Run::new(rt.alloc());
    for line in rt.lines(rt.alloc()) {
        let mut answer = String::new(rt.alloc());
        run.answer(&mut answer, line?.as_str())?;
        rt.print(answer.as_str())?;
    }
    Ok(())
}
