//! Judges a recorded run of tasks: whether it is legal and over, and which of its steps race.
#![tactic(auto)]

mod program;

use std::process::ExitCode;

fn main(rt: HostRuntime) -> ExitCode {
    ExitCode::from(program::start(&rt))
}
