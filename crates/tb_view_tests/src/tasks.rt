//! Tests that the views of tasks are shown: one task in each state, and one after each hindrance.

ghost use Rattle.std.specs.Prelude.{◌≤◌};

use crate::views::{refusal, shows};
use std::alloc::{AllocGlobal, Global};
use std::mem;
use std::process::Abort;
use tb_live::{Break, Live};
use tb_model::TaskName;
use tb_read::read;
use tb_view::View;

const PROGRAM: &[u8] = b"cells 3
body main 0
taskgroup
task a 4 -2 depend inout 0
task b depend mutexinoutset 1
task b depend mutexinoutset 1
task f depend in 0
task f depend in 2
task e
task f depend out all
task b depend mutexinoutset 1 depend in 1
end
end
body a 2
task f if r0 < r1
end
body b 0
task f
taskwait
end
body f 0
store 7 0
end
body e 0
end
";

/// The tasks in the order in which they step, and how often each does.
const STEPS: [(&str, usize); 5] = [("0", 10), ("0.1", 2), ("0.2", 2), ("0.5", 2), ("0.6", 2)];

/// The view, the task that it is asked of, and the text.
const TEXTS: [(&str, &str, &str); 12] = [
    (
        "tasks",
        "0",
        "tasks 11\n0 main running 12\n0.1 a running 16\n0.1.1 f pending\n0.2 b running 19\n0.2.1 f pending\n0.3 b pending\n0.4 f pending\n0.5 f faulted\n0.6 e ended\n0.7 f pending\n0.8 b pending\n",
    ),
    (
        "task",
        "0",
        "task 0\nbody main\nstate running 12\nsteps 10\nregs 0 0 0 0 0 0 0 0 0 0 0 0 0 0 0 0\ngroups 1\nitems 0\n",
    ),
    (
        "task",
        "0.1",
        "task 0.1\nbody a\nstate running 16\nsteps 2\nregs 4 -2 0 0 0 0 0 0 0 0 0 0 0 0 0 0\ngroups 0\nitems 1\ninout 0\n",
    ),
    (
        "task",
        "0.5",
        "task 0.5\nbody f\nstate faulted\nsteps 2\nregs 0 0 0 0 0 0 0 0 0 0 0 0 0 0 0 0\ngroups 0\nitems 1\nin 2\n",
    ),
    (
        "task",
        "0.7",
        "task 0.7\nbody f\nstate pending\nsteps 0\nregs 0 0 0 0 0 0 0 0 0 0 0 0 0 0 0 0\ngroups 0\nitems 1\nout all\n",
    ),
    (
        "task",
        "0.8",
        "task 0.8\nbody b\nstate pending\nsteps 0\nregs 0 0 0 0 0 0 0 0 0 0 0 0 0 0 0 0\ngroups 0\nitems 2\nmutexinoutset 1\nin 1\n",
    ),
    ("ready", "0", "ready 2\n0.1.1\n0.2.1\n"),
    (
        "waits",
        "0",
        "waits 7\n0 Group 0.1\n0.1 Undeferred 0.1.1\n0.2 Children 0.2.1\n0.3 Excluded 0.2\n0.4 Waiting 0.1\n0.7 Waiting 0.1\n0.8 Waiting 0.2\n",
    ),
    ("deps", "0", "deps 0\n"),
    ("deps", "0.3", "deps 2\n0.2 apart\n0.8 apart\n"),
    (
        "deps",
        "0.8",
        "deps 5\n0.2 before\n0.2 apart\n0.3 before\n0.3 apart\n0.7 before\n",
    ),
    (
        "breaks",
        "0",
        "breaks 4\n1 task 0.1\n3 body f\n4 print\n5 fault\n",
    ),
];

/// A run whose journal is full after the steps above.
fn opened(alloc: Global) -> Option<Live> {
    let program = match read(alloc, PROGRAM) {
        Ok(program) => program,
        Err(_) => return None,
    };
    match Live::open(alloc, program, 19, 1) {
        Ok(live) => Some(live),
        Err(_) => None,
    }
}

fn name(rt: &(impl Abort + AllocGlobal), text: &str) -> TaskName {
    TaskName::parse(rt.alloc(), text.as_bytes()).expect(rt, "a name")
}

fn step_all(rt: &(impl Abort + AllocGlobal), live: &mut Live) {
    for (text, count) in STEPS {
        let task = name(rt, text);
        for _ in 0..count {
            assert!(rt; live.step(&task).is_ok(), "{text}");
        }
    }
}

fn break_all(rt: &(impl Abort + AllocGlobal), live: &mut Live) {
    let points = [
        Break::Task(name(rt, "0.1")),
        Break::Cell(2),
        Break::Body(21),
        Break::Print,
        Break::Fault,
    ];
    for point in points {
        assert!(rt; live.add_break(point).is_ok());
    }
    assert!(rt; live.clear_break(2).is_ok());
}

fn view(word: &str, task: TaskName) -> View {
    match word {
        "tasks" => View::Tasks,
        "task" => View::Task { task },
        "ready" => View::Ready,
        "waits" => View::Waits,
        "deps" => View::Deps { task },
        _ => View::Breaks,
    }
}

fn show_all(rt: &(impl Abort + AllocGlobal), live: &Live) {
    for (word, task, want) in TEXTS {
        assert!(rt;
            shows(rt.alloc(), live, view(word, name(rt, task)), want),
            "{word} {task}"
        );
    }
    for word in ["task", "deps"] {
        assert_eq!(rt; refusal(rt.alloc(), live, view(word, name(rt, "0.9"))), 1);
    }
}

#[test]
fn views_of_tasks(rt: HostRuntime) {
    let mut live = opened(rt.alloc()).expect(&rt, "an accepted program");
    step_all(&rt, &mut live);
    break_all(&rt, &mut live);
    show_all(&rt, &live);
    mem::forget(live);
}
