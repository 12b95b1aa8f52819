//! Tests that views are shown, and when they aren't.

ghost use Rattle.std.specs.Prelude.{◌≤◌};

use std::alloc::{AllocGlobal, Global};
use std::mem;
use std::process::Abort;
use tb_live::Live;
use tb_model::{StepId, TaskName};
use tb_read::read;
use tb_view::{View, ViewRefusal, line, text};

const STORED: &[u8] = b"cells 2\nbody main 0\nstore 1 7\nload r3 1\nprint r3\nend\n";

fn opened(alloc: Global) -> Option<Live> {
    let program = match read(alloc, STORED) {
        Ok(program) => program,
        Err(_) => return None,
    };
    match Live::open(alloc, program, 100, 1) {
        Ok(live) => Some(live),
        Err(_) => None,
    }
}

fn step_root(rt: &(impl Abort + AllocGlobal), live: &mut Live, count: usize) {
    let root = TaskName::root(rt.alloc());
    for _ in 0..count {
        assert!(rt; live.step(&root).is_ok());
    }
}

fn of_root(alloc: Global, k: u32) -> StepId {
    StepId {
        task: TaskName::root(alloc),
        k,
    }
}

pub(crate) fn shows(alloc: Global, live: &Live, view: View, want: &str) -> bool {
    match text(alloc, live, &view) {
        Ok(bytes) => bytes.as_slice() == want.as_bytes(),
        Err(_) => false,
    }
}

pub(crate) fn refusal(alloc: Global, live: &Live, view: View) -> u8 {
    match text(alloc, live, &view) {
        Ok(_) => 100,
        Err(refusal) => refusal.number(),
    }
}

fn removed_line(alloc: Global, live: &mut Live, id: &StepId, want: &str) -> bool {
    match live.undo(0, id) {
        Ok(removed) => match line(alloc, live, &removed) {
            Ok(bytes) => bytes.as_slice() == want.as_bytes(),
            Err(_) => false,
        },
        Err(_) => false,
    }
}

fn view(alloc: Global, word: &str, k: u32) -> View {
    let id = of_root(alloc, k);
    match word {
        "cells" => View::Cells,
        "out" => View::Out,
        "hist" => View::Hist,
        "why" => View::Why { id },
        _ => View::Who { id },
    }
}

/// The view, the step of the root that it is asked of, and the text.
const TEXTS: [(&str, u32, &str); 5] = [
    ("cells", 1, "cells 2\n1 7\n"),
    ("out", 1, "out 1\n7\n"),
    (
        "hist",
        1,
        "hist 4\n0#1 start\n0#2 store 1 7\n0#3 load r3 1 7\n0#4 print 7\n",
    ),
    ("why", 3, "why 2\n0#1 start\n0#2 store 1 7\n"),
    ("who", 3, "who 1\n0#4 print 7\n"),
];

fn show_all(rt: &(impl Abort + AllocGlobal), live: &Live) {
    for (word, k, want) in TEXTS {
        assert!(rt;
            shows(rt.alloc(), live, view(rt.alloc(), word, k), want),
            "{word}"
        );
    }
}

fn refuse_all(rt: &(impl Abort + AllocGlobal), live: &Live) {
    for word in ["why", "who"] {
        assert_eq!(rt; refusal(rt.alloc(), live, view(rt.alloc(), word, 5)), 1);
    }
}

#[test]
fn views_of_the_root(rt: HostRuntime) {
    let mut live = opened(rt.alloc()).expect(&rt, "an accepted program");
    step_root(&rt, &mut live, 4);
    show_all(&rt, &live);
    refuse_all(&rt, &live);
    mem::forget(live);
}

#[test]
fn the_line_of_a_removed_step(rt: HostRuntime) {
    let mut live = opened(rt.alloc()).expect(&rt, "an accepted program");
    step_root(&rt, &mut live, 4);
    let id = of_root(rt.alloc(), 4);
    assert!(rt; removed_line(rt.alloc(), &mut live, &id, "0#4 print 7\n"));
    mem::forget(live);
}

#[test]
pub(crate) fn refusals_have_numbers(rt: HostRuntime) {
    assert_eq!(rt; ViewRefusal::Memory.number(), 0);
}
