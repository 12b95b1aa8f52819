//! Whose earliest needer is whose, in a history for each kind of need.

use crate::taking::taken;
use std::alloc::AllocGlobal;
use std::mem;
use std::process::Abort;
use tb_core::{History, first_needer, place_of, step_at};
use tb_model::StepId;

fn place(rt: &(impl Abort + AllocGlobal), entries: &History<'_>, id: &str) -> Option<usize> {
    let id = StepId::parse(rt.alloc(), id.as_bytes()).expect(rt, "a step");
    let found = place_of(entries, &id);
    mem::forget(id);
    found
}

fn printed(rt: &(impl Abort + AllocGlobal), id: StepId) -> String {
    let mut text = String::new(rt.alloc());
    id.print(&mut text).expect(rt, "memory is there");
    mem::forget(id);
    text
}

/// The earliest step that needs the one at the index is this, or there is none and it is free.
fn compare_needer(rt: &(impl Abort + AllocGlobal), entries: &History<'_>, at: usize, by: &str) {
    assert!(rt; at < entries.len() && entries.len() <= 1_000_000);
    match first_needer(entries, at) {
        Some(found) => {
            let text = printed(rt, step_at(entries, found).expect(rt, "memory is there"));
            assert_eq!(rt; text.as_str(), by, "at {at}");
            mem::forget(text);
        }
        None => assert_eq!(rt; "free", by, "at {at}"),
    }
}

/// Each step has this earliest needer, where the tasks of the program execute steps in this order.
fn compare(rt: &(impl Abort + AllocGlobal), text: &[u8], names: &[&str], needers: &[(&str, &str)]) {
    let core = taken(rt, text, names);
    let entries = core.legal_entries();
    for (id, by) in needers {
        match place(rt, &entries, *id) {
            Some(at) => compare_needer(rt, &entries, at, *by),
            None => assert_eq!(rt; "absent", *by, "at {id}"),
        }
    }
    mem::forget(entries);
    mem::forget(core);
}

#[test]
fn a_store_needs_the_load_in_front_of_it(rt: HostRuntime) {
    let text = b"cells 1\nbody main 0\ntask a\ntask b\nend\nbody a 0\nload r0 0\nend\n\
        body b 0\nlet r0 1\nstore 0 r0\nend\n";
    let names = ["0", "0", "0", "0.1", "0.1", "0.2", "0.2", "0.2"];
    let needers = [
        ("0.1#2", "0.2#3"),
        ("0.2#3", "free"),
        ("0.1#1", "0.1#2"),
        ("0#2", "0#3"),
        ("0#3", "0.2#1"),
        ("0.2#4", "absent"),
        ("0.3#1", "absent"),
    ];
    compare(&rt, text, names.as_slice(), needers.as_slice());
}

#[test]
fn waits_and_ends_of_groups_need_ends(rt: HostRuntime) {
    let text = b"cells 0\nbody main 0\ntask c\ntaskwait\ntaskgroup\ntask c\nend\nend\n\
        body c 0\ntask g\nend\nbody g 0\nend\n";
    let names = [
        "0", "0", "0.1", "0.1", "0.1", "0", "0", "0", "0.2", "0.2", "0.2", "0.2.1", "0.2.1",
        "0.1.1", "0.1.1", "0", "0",
    ];
    let needers = [
        ("0.2.1#2", "0#6"),
        ("0.2#3", "0#6"),
        ("0.1.1#2", "free"),
        ("0.1#3", "0#3"),
        ("0#6", "0#7"),
        ("0#7", "free"),
    ];
    compare(&rt, text, names.as_slice(), needers.as_slice());
}

#[test]
fn the_end_of_a_group_needs_no_members_of_others(rt: HostRuntime) {
    let text = b"cells 1\nbody main 0\ntaskgroup\ntask f\ntaskgroup\ntask e\nend\nend\nend\n\
        body f 0\nstore 7 0\nend\nbody e 0\nend\n";
    let names = [
        "0", "0", "0", "0", "0", "0.1", "0.1", "0.2", "0.2", "0", "0",
    ];
    let needers = [("0.1#2", "0#7"), ("0.2#2", "0#6")];
    compare(&rt, text, names.as_slice(), needers.as_slice());
}

#[test]
fn a_print_needs_the_prints_in_front_of_it(rt: HostRuntime) {
    let text = b"cells 0\nbody main 0\ntask a\ntask b\nend\nbody a 0\nprint 1\nlet r0 1\nend\n\
        body b 0\nprint 1\nend\n";
    let names = ["0", "0", "0", "0.1", "0.1", "0.2", "0.2", "0.1"];
    let needers = [("0.1#2", "0.2#2"), ("0.2#2", "free"), ("0.1#3", "free")];
    compare(&rt, text, names.as_slice(), needers.as_slice());
}

#[test]
fn starts_need_the_ends_of_elder_and_of_exclusive_siblings(rt: HostRuntime) {
    let text = b"cells 2\nbody main 0\ntask e depend mutexinoutset 0\n\
        task e depend mutexinoutset 0\ntask e depend out 0\ntask e depend in 1\nend\n\
        body e 0\nend\n";
    let names = [
        "0", "0", "0", "0", "0", "0.2", "0.2", "0.4", "0.1", "0.1", "0.3",
    ];
    let needers = [("0.2#2", "0.1#1"), ("0.1#2", "0.3#1"), ("0.4#1", "free")];
    compare(&rt, text, names.as_slice(), needers.as_slice());
}

#[test]
fn a_task_needs_the_end_of_its_undeferred_child(rt: HostRuntime) {
    let text = b"cells 1\nbody main 0\ntask c if 1 == 2\nprint 1\nend\nbody c 0\nstore 0 1\nend\n";
    let names = ["0", "0", "0.1", "0.1", "0.1", "0"];
    let needers = [("0.1#3", "0#3"), ("0#3", "free")];
    compare(&rt, text, names.as_slice(), needers.as_slice());
}

#[test]
fn a_wait_with_items_needs_the_ends_that_they_match(rt: HostRuntime) {
    let text = b"cells 2\nbody main 0\ntask e depend out 0\ntask e depend out 1\n\
        taskwait depend in 1\nend\nbody e 0\nend\n";
    let names = ["0", "0", "0", "0.1", "0.1", "0.2", "0.2", "0"];
    let needers = [("0.1#2", "free"), ("0.2#2", "0#4"), ("0#4", "free")];
    compare(&rt, text, names.as_slice(), needers.as_slice());
}
