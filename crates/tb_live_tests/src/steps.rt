//! Tests that calls succeed, and of what they return.

ghost use Rattle.std.specs.Prelude.{◌≤◌};

use std::alloc::{AllocGlobal, Global};
use std::mem;
use std::process::Abort;
use tb_live::{Live, Removed, StepRefusal, UndoRefusal};
use tb_model::{Action, StepId, TaskName};
use tb_read::read;

fn opened(alloc: Global, text: &[u8], limit: u32) -> Option<Live>
    requires some { 1 ≤ limit }
    requires bound { limit ≤ 1000000 }
{
    let program = match read(alloc, text) {
        Ok(program) => program,
        Err(_) => return None,
    };
    match Live::open(alloc, program, limit, 3) {
        Ok(live) => Some(live),
        Err(_) => None,
    }
}

fn number_of(taken: Result<StepId, StepRefusal>) -> u8 {
    let number = match &taken {
        Ok(_) => 100,
        Err(refusal) => refusal.number(),
    };
    mem::forget(taken);
    number
}

fn number_kept(live: &mut Live, alloc: Global, k: u32) -> u8 {
    let id = StepId {
        task: TaskName::root(alloc),
        k,
    };
    let outcome = live.undo(0, &id);
    let number = number_behind(&outcome, k);
    mem::forget(outcome);
    mem::forget(id);
    number
}

/// The code of the answer to an undo of the nth step of the root.
fn number_behind(outcome: &Result<Removed, UndoRefusal>, k: u32) -> u8 {
    match outcome {
        Ok(_) => 100,
        Err(UndoRefusal::Needed { by }) => { if by.k > k { 2 } else { 99 } }
        Err(refusal) => refusal.number(),
    }
}

const STORED: &[u8] = b"cells 1\nbody main 0\n  store 0 7\n  load r3 0\n  print r3\nend\n";

/// The answers to undos of these steps of the root: the code of each refusal, and 100 for a step
/// that is gone.
fn undo_all(rt: &(impl Abort + AllocGlobal), live: &mut Live, rows: &[(u32, u8)]) {
    for (k, number) in rows {
        assert_eq!(rt; number_kept(live, rt.alloc(), *k), *number, "undo of {k}");
    }
}

fn step_root(rt: &(impl Abort + AllocGlobal), live: &mut Live, numbers: &[u8]) {
    let root = TaskName::root(rt.alloc());
    for number in numbers {
        assert_eq!(rt; number_of(live.step(&root)), *number);
    }
    mem::forget(root);
}

#[test]
fn steps_and_undoes(rt: HostRuntime) {
    let mut live = opened(rt.alloc(), STORED, 12).expect(&rt, "an accepted program");
    assert_eq!(rt; live.program().root_line(), 2);
    step_root(&rt, &mut live, &[100, 100, 100, 100]);
    assert!(rt; live.output() == [7].as_slice());
    assert!(rt; live.cells() == [7].as_slice());
    undo_all(
        &rt,
        &mut live,
        &[(2, 2), (9, 1), (0, 1), (4, 100), (3, 100), (2, 100)],
    );
    assert!(rt; live.output().is_empty());
    assert!(rt; live.cells() == [0].as_slice());
    assert_eq!(rt; live.is_full(), false);
    mem::forget(live);
}

const FAULTY: &[u8] = b"cells 0\nbody main 0\nload r0 0\nend\n";

#[test]
fn ends_and_fills(rt: HostRuntime) {
    let mut live = opened(rt.alloc(), FAULTY, 3).expect(&rt, "an accepted program");
    step_root(&rt, &mut live, &[100, 100, 2]);
    assert!(rt; matches!(live.newest(), Some((_, Action::Fault))));
    assert!(rt; live.is_full());
    undo_all(&rt, &mut live, &[(2, 3), (1, 2)]);
    mem::forget(live);
}

/// A journal that may have no more entries executes no step, and takes one where it may have one
/// more.
#[test]
fn a_limit_is_set(rt: HostRuntime) {
    let mut live = opened(rt.alloc(), STORED, 12).expect(&rt, "an accepted program");
    step_root(&rt, &mut live, &[100, 100]);
    live.journal_is_sound();
    let entries = live.journal().len() as u32;
    live.set_limit(entries);
    assert!(rt; live.is_full());
    step_root(&rt, &mut live, &[7]);
    live.journal_is_sound();
    let limit = live.limit();
    assert!(rt; limit < 1_000_000);
    live.set_limit(limit + 1);
    step_root(&rt, &mut live, &[100, 7]);
    assert_eq!(rt; live.cells(), [7].as_slice());
    mem::forget(live);
}

/// The task that a refusal names.
fn named(refusal: &StepRefusal) -> Option<&TaskName> {
    match refusal {
        StepRefusal::Waiting { pred } => Some(pred),
        StepRefusal::Excluded { by } => Some(by),
        StepRefusal::Children { first } => Some(first),
        StepRefusal::Group { first } => Some(first),
        StepRefusal::Undeferred { child } => Some(child),
        _ => None,
    }
}

/// Adds the code of the refusal with the task that it names.
fn tell_refusal(rt: &impl Abort, text: &mut String, refusal: &StepRefusal) {
    let number = refusal.number();
    write!(text, "{number} ").expect(rt, "memory is there");
    if let Some(task) = named(refusal) {
        task.print(text).expect(rt, "memory is there");
    }
    text.push(' ').expect(rt, "memory is there");
}

/// The code of the refusal that a step of the task would get, a full journal aside, and 100 for a
/// step that would be executed.
fn foretold(rt: &impl Abort, live: &Live, task: &TaskName) -> u8 {
    match live.refusal(task).expect(rt, "memory is there") {
        Some(refusal) => {
            let number = refusal.number();
            mem::forget(refusal);
            number
        }
        None => 100,
    }
}

/// Adds the refusal of a step of the task, and nothing for a step that is executed.
fn answer(rt: &(impl Abort + AllocGlobal), live: &mut Live, name: &str, text: &mut String) {
    let task = TaskName::parse(rt.alloc(), name.as_bytes()).expect(rt, name);
    let mut number = foretold(rt, live, &task);
    if let Err(refusal) = live.step(&task) {
        if live.is_full() {
            number = 7;
        }
        assert_eq!(rt; refusal.number(), number);
        tell_refusal(rt, text, &refusal);
        mem::forget(refusal);
    } else {
        assert_eq!(rt; number, 100);
    }
    mem::forget(task);
}

/// The refusals of steps of the tasks, one after another.
fn answers(rt: &(impl Abort + AllocGlobal), live: &mut Live, names: &[&str]) -> String {
    let mut text = String::new(rt.alloc());
    for name in names {
        answer(rt, live, *name, &mut text);
    }
    text
}

/// The program, the steps that are asked for, and the refusals in between.
const ROWS: [(&[u8], &[&str], &str); 6] = [
    (
        b"cells 1\nbody main 0\ntask t depend out 0\ntask t depend in 0\nend\nbody t 0\nend\n",
        &[
            "0", "0", "0.1", "0", "0.2", "0.1", "0.2", "0.2", "0.2", "0.3",
        ],
        "3 0.1 2  1  ",
    ),
    (
        b"cells 1\nbody main 0\ntask t depend mutexinoutset 0\ntask t depend mutexinoutset 0\n\
          end\nbody t 0\nend\n",
        &["0", "0", "0", "0.2", "0.1", "0.2", "0.1"],
        "4 0.2 ",
    ),
    (
        b"cells 0\nbody main 0\ntask c\ntaskwait\ntaskgroup\ntask c\nend\nend\nbody c 0\n\
          task g\nend\nbody g 0\nend\n",
        &[
            "0", "0", "0", "0.1", "0.1", "0.1", "0", "0", "0", "0.2", "0.2", "0.2", "0", "0.2.1",
            "0.2.1", "0", "0",
        ],
        "5 0.1 6 0.2.1 ",
    ),
    (
        b"cells 0\nbody main 0\ntask c if 1 == 2\nend\nbody c 0\nend\n",
        &["0", "0", "0", "0.1", "0", "0.1", "0"],
        "13 0.1 13 0.1 ",
    ),
    (
        b"cells 1\nbody main 0\nlet r0 2\nwhile 0 < r0\nlet r0 r0 - 1\nend\nif r0 == 0\n\
          store 5 1\nend\nend\n",
        &["0", "0", "0", "0", "0", "0", "0", "0", "0", "0"],
        "2  ",
    ),
    (
        b"cells 0\nbody main 0\nprint 1\nprint 1\nprint 1\nprint 1\nprint 1\nprint 1\n\
          print 1\nprint 1\nprint 1\nprint 1\nprint 1\nprint 1\nprint 1\nprint 1\n\
          print 1\nprint 1\nprint 1\nprint 1\nprint 1\nend\n",
        &["0"; 20],
        "7  ",
    ),
];

fn compare(rt: &(impl Abort + AllocGlobal), text: &[u8], names: &[&str], refusals: &str) {
    let mut live = opened(rt.alloc(), text, 20).expect(rt, "an accepted program");
    let told = answers(rt, &mut live, names);
    assert_eq!(rt; told.as_str(), refusals, "{text:?}");
    mem::forget(told);
    mem::forget(live);
}

#[test]
fn each_refusal_names_what_stands_in_the_way(rt: HostRuntime) {
    for (text, names, refusals) in ROWS {
        compare(&rt, text, names, refusals);
    }
}

/// A store, and a load that a later store overwrote, next to a task that has nothing to do with
/// them.
const CONFLICT: &[u8] = b"cells 1\ncell 0 5\nbody main 0\ntask a\ntask b\nend\nbody a 0\n\
    load r0 0\nprint r0\nend\nbody b 0\nlet r0 1\nstore 0 9\nend\n";

/// Adds the step, or that there is none.
fn tell(rt: &impl Abort, text: &mut String, id: &Option<StepId>) {
    match id {
        Some(id) => id.print(text).expect(rt, "memory is there"),
        None => text.push_str("none").expect(rt, "memory is there"),
    }
}

fn tell_removed(rt: &impl Abort, text: &mut String, removed: &[Removed]) {
    for step in removed {
        step.id.print(text).expect(rt, "memory is there");
        text.push(' ').expect(rt, "memory is there");
    }
}

/// Adds the steps that go with one, or the code of the refusal.
fn roll_back(rt: &(impl Abort + AllocGlobal), live: &mut Live, id: &StepId, text: &mut String) {
    match live.roll(0, id) {
        Ok(removed) => {
            tell_removed(rt, text, &removed);
            mem::forget(removed);
        }
        Err(refusal) => {
            let number = refusal.number();
            mem::forget(refusal);
            write!(text, "{number}").expect(rt, "memory is there");
        }
    }
}

/// The rollback of the step is answered so.
fn compare_rollback(rt: &(impl Abort + AllocGlobal), live: &mut Live, id: &str, gone: &str) {
    let step = StepId::parse(rt.alloc(), id.as_bytes()).expect(rt, id);
    let mut text = String::new(rt.alloc());
    roll_back(rt, live, &step, &mut text);
    assert_eq!(rt; text.as_str(), gone, "at {id}");
    mem::forget(step);
    mem::forget(text);
}

/// What is rolled back, one after another, and what goes with it.
const ROLLBACKS: [(&str, &str); 5] = [
    ("0.3#1", "1"),
    ("0.1#2", "0.1#2 0.1#3 0.2#3 "),
    ("0#2", "0#2 0#3 0.1#1 0.2#1 0.2#2 "),
    ("0#1", "0#1 "),
    ("0#1", "1"),
];

fn roll_all(rt: &(impl Abort + AllocGlobal), live: &mut Live) {
    for (id, gone) in ROLLBACKS {
        compare_rollback(rt, live, id, gone);
    }
}

/// The last store to cell 0 and the last print are these.
fn compare_newest(rt: &(impl Abort + AllocGlobal), live: &Live, newest: &str) {
    let mut text = String::new(rt.alloc());
    let store = live.last_store(0).expect(rt, "memory is there");
    tell(rt, &mut text, &store);
    mem::forget(store);
    text.push(' ').expect(rt, "memory is there");
    let print = live.last_print().expect(rt, "memory is there");
    tell(rt, &mut text, &print);
    mem::forget(print);
    assert_eq!(rt; text.as_str(), newest);
    mem::forget(text);
}

#[test]
fn a_rollback_takes_what_needs_the_step(rt: HostRuntime) {
    let mut live = opened(rt.alloc(), CONFLICT, 14).expect(&rt, "an accepted program");
    let names = ["0", "0", "0", "0.1", "0.1", "0.1", "0.2", "0.2", "0.2"];
    let refusals = answers(&rt, &mut live, names.as_slice());
    assert!(rt; refusals.is_empty());
    mem::forget(refusals);
    compare_newest(&rt, &live, "0.2#3 0.1#3");
    roll_all(&rt, &mut live);
    assert!(rt; live.newest().is_none());
    mem::forget(live);
}

/// Adds the step that is executed, or the code of the refusal.
fn take_one(rt: &impl Abort, live: &mut Live, line: &mut String) {
    match live.step_least() {
        Ok(id) => {
            tell(rt, line, &id);
            mem::forget(id);
        }
        Err(refusal) => {
            let number = refusal.number();
            write!(line, "{number}").expect(rt, "memory is there");
            mem::forget(refusal);
        }
    }
    line.push(' ').expect(rt, "memory is there");
}

fn take_nine(rt: &(impl Abort + AllocGlobal), live: &mut Live) -> String {
    let mut line = String::new(rt.alloc());
    for _ in 0..9 {
        take_one(rt, live, &mut line);
    }
    line
}

/// Two tasks of which the second waits for the first, and a wait for both.
const ORDERED: &[u8] = b"cells 1\nbody main 0\ntask t depend out 0\ntask t depend in 0\n\
    taskwait\nend\nbody t 0\nend\n";

#[test]
fn the_least_that_can_step_does(rt: HostRuntime) {
    let mut live = opened(rt.alloc(), ORDERED, 10).expect(&rt, "an accepted program");
    let line = take_nine(&rt, &mut live);
    assert_eq!(rt;
        line.as_str(),
        "0#1 0#2 0#3 0.1#1 0.1#2 0.2#1 0.2#2 0#4 0#5 "
    );
    mem::forget(line);
    mem::forget(live);
}

const PRINTED: &[u8] = b"cells 1\nbody main 0\n  let r0 5\n  store 0 r0\n  print r0\nend\n";

/// A step of the root that was refused for memory changes nothing, and made again it is taken.
fn step_again(rt: &(impl Abort + AllocGlobal), live: &mut Live, k: u32) {
    let root = TaskName::root(rt.alloc());
    let printed = live.output().len();
    let number = number_of(live.step(&root));
    if number != 100 {
        assert_eq!(rt; number, 0, "step {k}");
        assert_eq!(rt; live.output().len(), printed);
        assert_eq!(rt;
            number_kept(live, rt.alloc(), k),
            1,
            "nothing stands at {k}"
        );
        assert_eq!(rt; number_of(live.step(&root)), 100);
    }
    mem::forget(root);
}

/// An undo that was refused for memory changes nothing, and made again it is done.
fn undo_again(rt: &(impl Abort + AllocGlobal), live: &mut Live, k: u32) {
    let number = number_kept(live, rt.alloc(), k);
    if number != 100 {
        assert_eq!(rt; number, 0, "undo of {k}");
        assert_eq!(rt; number_kept(live, rt.alloc(), k), 100, "{k} stands");
    }
}

/// How many steps go with this one, or the code of the refusal.
fn gone(live: &mut Live, id: &StepId) -> Result<usize, u8> {
    match live.roll(0, id) {
        Ok(removed) => {
            let count = removed.len();
            mem::forget(removed);
            Ok(count)
        }
        Err(refusal) => {
            let number = refusal.number();
            mem::forget(refusal);
            Err(number)
        }
    }
}

/// A rollback of all steps that was refused for memory changes nothing, and made again it is done.
fn roll_again(rt: &(impl Abort + AllocGlobal), live: &mut Live) {
    let first = StepId {
        task: TaskName::root(rt.alloc()),
        k: 1,
    };
    let mut answer = gone(live, &first);
    if let Err(number) = answer {
        assert_eq!(rt; number, 0);
        assert_eq!(rt; live.output().len(), 1);
        answer = gone(live, &first);
    }
    assert_eq!(rt; answer, Ok(4));
    mem::forget(first);
}

/// A call that was refused for memory changes nothing, and made again it answers as it would have
/// at first.
#[test]
fn a_refused_growth_changes_nothing(rt: HostRuntime) {
    let mut live = match opened(rt.alloc(), PRINTED, 200) {
        Some(live) => live,
        None => opened(rt.alloc(), PRINTED, 200).expect(&rt, "memory is there again"),
    };
    for _round in 0..12u32 {
        for k in 1..5u32 {
            step_again(&rt, &mut live, k);
        }
        for k in [4u32, 3, 2, 1] {
            undo_again(&rt, &mut live, k);
        }
        for k in 1..5u32 {
            step_again(&rt, &mut live, k);
        }
        roll_again(&rt, &mut live);
    }
    assert!(rt; live.output().is_empty());
    assert!(rt; live.cells() == [0].as_slice());
    mem::forget(live);
}
