//! A run to ask, and what is asked for by name.

ghost use Rattle.std.specs.Prelude.{◌≤◌};

use std::alloc::{AllocGlobal, Global};
use std::process::Abort;
use tb_live::{Live, StepRefusal};
use tb_model::{StepId, TaskName};
use tb_read::read;

/// A load and a later store of two tasks that race, and a group with a task that waits.
const TEXT: &[u8] = b"cells 1\ncell 0 5\nbody main 0\ntask a\ntask b\ntaskgroup\n\
    task c depend out 0\ntask c depend in 0\nend\nend\nbody a 0\nload r0 0\nprint r0\nend\n\
    body b 0\nlet r0 1\nstore 0 9\nend\nbody c 0\nend\n";

/// The tasks that have executed these steps.
const STEPS: [&str; 13] = [
    "0", "0", "0", "0", "0", "0", "0.1", "0.1", "0.1", "0.2", "0.2", "0.2", "0.2",
];

pub fn task(rt: &(impl Abort + AllocGlobal), text: &str) -> TaskName {
    TaskName::parse(rt.alloc(), text.as_bytes()).expect(rt, text)
}

pub fn step(rt: &(impl Abort + AllocGlobal), text: &str) -> StepId {
    StepId::parse(rt.alloc(), text.as_bytes()).expect(rt, text)
}

fn opened_once(alloc: Global, text: &[u8], limit: u32) -> Option<Live>
    requires some { 1 ≤ limit }
    requires bound { limit ≤ 1000000 }
{
    let program = match read(alloc, text) {
        Ok(program) => program,
        Err(_) => return None,
    };
    match Live::open(alloc, program, limit, 3) {
        Ok(live) => Some(live),
        Err(_) => None,
    }
}

/// A run of the program without steps, whose journal may have so many entries.
pub fn opened_for(rt: &(impl Abort + AllocGlobal), text: &[u8], limit: u32) -> Live
    requires some { 1 ≤ limit }
    requires bound { limit ≤ 1000000 }
{
    match opened_once(rt.alloc(), text, limit) {
        Some(live) => live,
        None => opened_once(rt.alloc(), text, limit).expect(rt, "memory is there again"),
    }
}

/// A run without steps.
pub fn opened(rt: &(impl Abort + AllocGlobal)) -> Live {
    opened_for(rt, TEXT, 200)
}

/// A step of the task for seat 0.
pub fn take(rt: &(impl Abort + AllocGlobal), live: &mut Live, name: &str) {
    let task = task(rt, name);
    let count = live.core().count();
    let taken = again!(rt; live.step(&task), StepRefusal::Memory, live.core().count() == count);
    assert!(rt; taken.is_ok(), "{name}");
}

/// Executes the steps that the other tests begin with.
pub fn take_all(rt: &(impl Abort + AllocGlobal), live: &mut Live) {
    for name in STEPS {
        take(rt, live, name);
    }
}
