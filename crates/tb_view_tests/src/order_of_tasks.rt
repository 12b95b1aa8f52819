//! Tests that `tasks` lists tasks in the order of their names, in whichever order they were
//! generated.

use crate::views::shows;
use std::alloc::{AllocError, AllocGlobal, Global};
use std::mem;
use std::process::Abort;
use tb_live::Live;
use tb_model::TaskName;
use tb_read::read;
use tb_view::View;

const PROGRAM: &[u8] = b"cells 0
body main 0
let r0 0
while r0 < 24
task t
let r0 r0 + 1
end
end
body t 0
let r0 0
while r0 < 12
task e
let r0 r0 + 1
end
end
body e 0
end
";

/// The steps of the root until it has generated its children, and those of one of them until it has generated its own.
const OF_ROOT: usize = 74;

const OF_CHILD: usize = 38;

/// The first and the last of the root's children generate theirs in turn, so each comes far from the one before it.
const ENDS: [&str; 2] = ["0.1", "0.24"];

fn step(rt: &(impl Abort + AllocGlobal), live: &mut Live, text: &str) {
    let task = TaskName::parse(rt.alloc(), text.as_bytes()).expect(rt, "a name");
    assert!(rt; live.step(&task).is_ok(), "{text}");
    mem::forget(task);
}

fn step_all(rt: &(impl Abort + AllocGlobal), live: &mut Live) {
    for _ in 0..OF_ROOT {
        step(rt, live, "0");
    }
    for _ in 0..OF_CHILD {
        for text in ENDS {
            step(rt, live, text);
        }
    }
}

/// The lines of all tasks.
fn wanted(alloc: Global) -> Result<String, AllocError> {
    let mut text = String::new(alloc);
    text.push_str("tasks 49\n0 main running 4\n")?;
    for n in 1..25 {
        if n == 1 || n == 24 {
            text.push_str(format!(in alloc; "0.{n} t running 11\n")?.as_str())?;
            for k in 1..13 {
                text.push_str(format!(in alloc; "0.{n}.{k} e pending\n")?.as_str())?;
            }
        } else {
            text.push_str(format!(in alloc; "0.{n} t pending\n")?.as_str())?;
        }
    }
    Ok(text)
}

#[test]
fn tasks_stand_in_their_order(rt: HostRuntime) {
    let alloc = rt.alloc();
    let program = read(alloc, PROGRAM).expect(&rt, "an accepted program");
    let mut live = Live::open(alloc, program, 1000, 1).expect(&rt, "memory is there");
    step_all(&rt, &mut live);
    let want = wanted(alloc).expect(&rt, "memory is there");
    assert!(rt; shows(alloc, &live, View::Tasks, want.as_str()));
    mem::forget(live);
}
