//! What a task's state has besides its situation.

ghost use Rattle.std.specs.Prelude.{◌≤◌};

use crate::seats::{opened, step_all, task};
use std::alloc::AllocGlobal;
use std::mem;
use std::process::Abort;
use tb_live::Live;
use tb_model::{StepId, TaskName};

/// A group with a child that generates one more, and one that faults.
const GROUPED: &[u8] = b"cells 1\nbody main 0\n  taskgroup\n    task u\n    task f\n  end\nend\n\
    body u 0\n  task e\nend\nbody f 0\n  store 7 0\nend\nbody e 0\nend\n";

const STEPS: [&str; 8] = ["0", "0", "0", "0", "0.1", "0.1", "0.2", "0.2"];

fn print_tasks(rt: &(impl Abort + AllocGlobal), tasks: &[TaskName]) -> String {
    let mut text = String::new(rt.alloc());
    for task in tasks {
        task.print(&mut text).expect(rt, "memory is there");
        text.push_str(" ").expect(rt, "memory is there");
    }
    text
}

fn print_steps(rt: &(impl Abort + AllocGlobal), steps: &[StepId]) -> String {
    let mut text = String::new(rt.alloc());
    for step in steps {
        step.print(&mut text).expect(rt, "memory is there");
        text.push_str(" ").expect(rt, "memory is there");
    }
    text
}

/// The task's unended children are these.
fn compare_children(rt: &(impl Abort + AllocGlobal), live: &Live, name: &str, want: &str) {
    let task = task(rt, name);
    let found = live.unended_children(&task).expect(rt, "memory is there");
    let text = print_tasks(rt, &found);
    assert_eq!(rt; text.as_str(), want);
    mem::forget(task);
    mem::forget(found);
    mem::forget(text);
}

/// The group's unended members are these.
fn compare_members(rt: &(impl Abort + AllocGlobal), live: &Live, group: &str, want: &str) {
    let group = StepId::parse(rt.alloc(), group.as_bytes()).expect(rt, "a step");
    let found = live.unended_members(&group).expect(rt, "memory is there");
    let text = print_tasks(rt, &found);
    assert_eq!(rt; text.as_str(), want);
    mem::forget(group);
    mem::forget(found);
    mem::forget(text);
}

/// The task's open groups are these.
fn compare_groups(rt: &(impl Abort + AllocGlobal), live: &Live, name: &str, want: &str) {
    let task = task(rt, name);
    let found = live.open_groups(&task).expect(rt, "memory is there");
    let text = print_steps(rt, &found);
    assert_eq!(rt; text.as_str(), want);
    mem::forget(task);
    mem::forget(found);
    mem::forget(text);
}

fn has_faulted(rt: &(impl Abort + AllocGlobal), live: &Live, name: &str) -> bool {
    let task = task(rt, name);
    let has_faulted = live.has_faulted(&task);
    mem::forget(task);
    has_faulted
}

fn ask(rt: &(impl Abort + AllocGlobal), live: &Live) {
    compare_groups(rt, live, "0", "0#2 ");
    compare_groups(rt, live, "0.1", "");
    compare_children(rt, live, "0", "0.1 ");
    compare_members(rt, live, "0#2", "0.1 0.1.1 ");
    assert!(rt; has_faulted(rt, live, "0.2"));
    assert!(rt; !has_faulted(rt, live, "0.1"));
}

#[test]
fn groups_children_and_members_are_told(rt: HostRuntime) {
    let mut live = opened(rt.alloc(), GROUPED).expect(&rt, "an accepted program");
    step_all(&rt, &mut live, STEPS.as_slice());
    ask(&rt, &live);
    mem::forget(live);
}
