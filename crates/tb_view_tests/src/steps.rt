//! What no clause says: that the calls succeed, and lines from outside.

use std::cmp::Ordering;
use std::hash::{DefaultHasher, Hash, Hasher};
use std::mem;
use std::process::Abort;
use tb_draft::Draft;
use tb_model::{
    Action, Args, Item, Items, Kind, NameRefusal, Place, Spawn, Spawned, StepId, TaskName,
    WaitItems,
};
use tb_view::write_step;

fn name(rt: &(impl Abort + AllocGlobal), text: &str) -> TaskName {
    TaskName::parse(rt.alloc(), text.as_bytes()).expect(rt, "a name")
}

fn printed(rt: &(impl Abort + AllocGlobal), name: &TaskName) -> String {
    let mut text = String::new(rt.alloc());
    name.print(&mut text).expect(rt, "memory is there");
    text
}

/// The name is printed so.
fn compare(rt: &(impl Abort + AllocGlobal), name: TaskName, want: &str) {
    let text = printed(rt, &name);
    assert_eq!(rt; text.as_str(), want);
    mem::forget(name);
    mem::forget(text);
}

#[test]
fn names_are_read_as_they_are_printed(rt: HostRuntime) {
    let spelled = ["0", "0.1", "0.1.12", "0.1000000", "0.1.2.3.4.5.6.7.8.9.10"];
    for text in spelled {
        compare(&rt, name(&rt, text), text);
    }
    let wrong = [
        "",
        "1",
        "00",
        "0.",
        ".0",
        "0..1",
        "0.0",
        "0.01",
        "0.1000001",
        "0.+1",
        "0.-1",
        "0#1",
        "0.4294967297",
        "0.99999999999999999999",
        "0 ",
        "0.a",
        "0.1.",
    ];
    for text in wrong {
        let refusal = TaskName::parse(rt.alloc(), text.as_bytes()).expect_err(&rt, text);
        assert_eq!(rt; refusal, NameRefusal::BadName);
        assert_eq!(rt; refusal.number(), 1);
    }
    assert_eq!(rt; NameRefusal::Memory.number(), 0);
}

/// The step is printed as it is read.
fn compare_step(rt: &(impl Abort + AllocGlobal), text: &str) {
    let id = StepId::parse(rt.alloc(), text.as_bytes()).expect(rt, text);
    let mut out = String::new(rt.alloc());
    id.print(&mut out).expect(rt, "memory is there");
    assert_eq!(rt; out.as_str(), text);
    mem::forget(id);
    mem::forget(out);
}

#[test]
fn steps_are_read_as_they_are_printed(rt: HostRuntime) {
    for text in ["0#1", "0.3#1000000", "0.1.12#7"] {
        compare_step(&rt, text);
    }
    for text in [
        "0",
        "0#",
        "#1",
        "0#0",
        "0#01",
        "0#1000001",
        "0#1#1",
        "0.0#1",
        "0# 1",
    ] {
        let refusal = StepId::parse(rt.alloc(), text.as_bytes()).expect_err(&rt, text);
        assert_eq!(rt; refusal, NameRefusal::BadName);
    }
}

/// The names are less, equal or greater as their indexes.
fn compare_order(rt: &impl Abort, a: &TaskName, b: &TaskName, places: (usize, usize)) {
    let (i, j) = places;
    assert_eq!(rt; a.cmp(b), i.cmp(&j));
    assert_eq!(rt; a == b, i == j);
    assert_eq!(rt; a < b, i < j);
}

#[test]
fn names_stand_in_order(rt: HostRuntime) {
    let order = [
        "0", "0.1", "0.1.1", "0.1.2", "0.1.10", "0.2", "0.10", "0.10.1",
    ];
    for (i, left) in order.iter().enumerate() {
        for (j, right) in order.iter().enumerate() {
            let (a, b) = (name(&rt, *left), name(&rt, *right));
            compare_order(&rt, &a, &b, (i, j));
            mem::forget(a);
            mem::forget(b);
        }
    }
}

fn compare_parent(rt: &impl Abort, parent: &TaskName, child: &TaskName) {
    assert!(rt; parent.is_parent_of(child) && !child.is_parent_of(parent));
    assert!(rt; child.is_within(parent) && child.is_within(child) && !parent.is_within(child));
}

/// Of the names, the first alone is an elder sibling of the child, and it is within none of them.
fn compare_others(rt: &(impl Abort + AllocGlobal), child: &TaskName) {
    for (text, is_elder) in [("0.1.3", true), ("0.2", false), ("0.12", false)] {
        let other = name(rt, text);
        assert_eq!(rt; other.is_elder_of(child), is_elder, "{text}");
        assert!(rt; !child.is_within(&other), "{text}");
        mem::forget(other);
    }
}

fn parent_of(rt: &impl Abort, name: &TaskName) -> Option<TaskName> {
    name.parent().expect(rt, "memory is there")
}

/// A name that is deeper than those that are stored without memory.
fn deep_name(rt: &(impl Abort + AllocGlobal)) -> TaskName {
    let mut deep = TaskName::root(rt.alloc());
    for n in 1..12u32 {
        deep = deep.child(n).expect(rt, "memory is there");
    }
    deep
}

fn hash_of(name: &TaskName) -> u64 {
    let mut hasher = DefaultHasher::new();
    name.hash(&mut hasher);
    hasher.finish()
}

fn compare_copy(rt: &(impl Abort + AllocGlobal), deep: &TaskName) {
    let text = printed(rt, deep);
    assert_eq!(rt; text.as_str(), "0.1.2.3.4.5.6.7.8.9.10.11");
    mem::forget(text);
    let again = deep.clone().expect(rt, "memory is there");
    assert_eq!(rt; hash_of(&again), hash_of(deep));
    mem::forget(again);
}

#[test]
fn relatives_of_a_name(rt: HostRuntime) {
    let child = name(&rt, "0.1.12");
    let parent = parent_of(&rt, &child).expect(&rt, "a parent");
    compare_parent(&rt, &parent, &child);
    compare_others(&rt, &child);
    compare(&rt, parent, "0.1");
    mem::forget(child);
    let root = TaskName::root(rt.alloc());
    assert!(rt; parent_of(&rt, &root).is_none());
    mem::forget(root);
    let deep = deep_name(&rt);
    compare_copy(&rt, &deep);
    compare(&rt, deep, "0.1.2.3.4.5.6.7.8.9.10.11");
}

/// The line of the step is this.
fn show(rt: &(impl Abort + AllocGlobal), id: &str, action: Action, want: &str) {
    let id = StepId::parse(rt.alloc(), id.as_bytes()).expect(rt, "a step");
    let mut text = Draft::new(rt.alloc());
    write_step(&mut text, "t", &id.task, id.k, &action).expect(rt, "memory is there");
    let text = text.into_string().expect(rt, "memory is there");
    assert_eq!(rt; text.as_str(), want);
    mem::forget(id);
    mem::forget(text);
    mem::forget(action);
}

fn spawn(
    rt: &(impl Abort + AllocGlobal),
    child: &str,
    numbers: &[i64],
    used: &[Item],
    deferred: bool,
) -> Action {
    let mut args = Args::new(rt.alloc());
    for number in numbers {
        args.push(*number).expect(rt, "memory is there");
    }
    let spawn = Spawn {
        child: name(rt, child),
        body: 7,
        args,
        items: items(rt, used),
        deferred,
    };
    Action::Spawn(Spawned::new(rt.alloc(), spawn).expect(rt, "memory is there"))
}

fn items(rt: &(impl Abort + AllocGlobal), used: &[Item]) -> Items {
    let mut items = Items::new(rt.alloc());
    for item in used {
        items.push(*item).expect(rt, "memory is there");
    }
    items
}

fn item(kind: Kind, cell: u32) -> Item {
    Item {
        kind,
        place: Place::Cell(cell),
    }
}

fn wait(rt: &(impl Abort + AllocGlobal), used: &[Item]) -> Action {
    let items = items(rt, used);
    Action::Wait {
        items: WaitItems::new(rt.alloc(), items).expect(rt, "memory is there"),
    }
}

#[test]
fn lines_of_steps(rt: HostRuntime) {
    let least = Action::Let {
        reg: 0,
        value: i64::MIN,
    };
    let load = Action::Load {
        reg: 15,
        cell: 0,
        value: 5,
    };
    let store = Action::Store {
        cell: 65535,
        value: 1,
    };
    show(&rt, "0#1", Action::Start, "0#1 start");
    show(&rt, "0#2", least, "0#2 let r0 -9223372036854775808");
    show(&rt, "0.1#2", load, "0.1#2 load r15 0 5");
    show(&rt, "0#2", store, "0#2 store 65535 1");
    show(&rt, "0#3", Action::Print { value: 7 }, "0#3 print 7");
    show(&rt, "0#3", wait(&rt, &[]), "0#3 wait");
    show(&rt, "0#4", Action::Open, "0#4 open");
    show(&rt, "0#6", Action::Close, "0#6 close");
    show(&rt, "0#2", Action::Test { yes: true }, "0#2 test yes");
    show(&rt, "0#2", Action::Test { yes: false }, "0#2 test no");
    show(&rt, "0.2.1#2", Action::End, "0.2.1#2 end");
    show(&rt, "0#3", Action::Fault, "0#3 fault");
}

/// Lines of spawns, with numbers or without and deferred or not.
fn show_spawns(rt: &(impl Abort + AllocGlobal), read: &[Item], two: &[Item], all: &[Item]) {
    let first = spawn(rt, "0.1", &[], read, true);
    show(rt, "0#2", first, "0#2 spawn 0.1 t depend in 0");
    let called = spawn(rt, "0.1", &[1, -2], two, true);
    show(
        rt,
        "0#2",
        called,
        "0#2 spawn 0.1 t 1 -2 depend mutexinoutset 0 depend inoutset 65535",
    );
    let undeferred = spawn(rt, "0.1", &[], all, false);
    show(
        rt,
        "0#2",
        undeferred,
        "0#2 spawn 0.1 t depend inout all undeferred",
    );
}

#[test]
fn lines_with_items(rt: HostRuntime) {
    let (read, written) = ([item(Kind::In, 0)], [item(Kind::Out, 3)]);
    let two = [item(Kind::Mutexinoutset, 0), item(Kind::Inoutset, 65535)];
    let all = [Item {
        kind: Kind::Inout,
        place: Place::All,
    }];
    show_spawns(&rt, &read, &two, &all);
    let third = spawn(&rt, "0.3", &[], &written, true);
    show(&rt, "0#4", third, "0#4 spawn 0.3 t depend out 3");
    show(&rt, "0#3", wait(&rt, &written), "0#3 wait depend out 3");
}
