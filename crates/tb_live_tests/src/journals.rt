//! A journal gives each entry back as it was added.

ghost use Rattle.std.specs.Prelude.{◌<◌, length};

use std::alloc::{AllocError, AllocGlobal, Global};
use std::mem;
use std::process::Abort;
use tb_journal::{Journal, copy_of, seat_of, stands_apart};
use tb_model::{
    Action, Args, Entry, Event, Item, Items, Kind, Place, Spawn, Spawned, StepId, TaskName,
    WaitItems,
};

/// A step of a task.
fn step_of(rt: &(impl Abort + AllocGlobal), seat: u32, name: &[u8], action: Action) -> Entry {
    let task = TaskName::parse(rt.alloc(), name).expect(rt, "a name");
    let event = Event { task, action };
    Entry::Stepped { seat, event }
}

/// A step of a task that is five levels deep.
fn step(rt: &(impl Abort + AllocGlobal), seat: u32, action: Action) -> Entry {
    step_of(rt, seat, b"0.1.2.3.4", action)
}

/// One item, and a second one where there are to be two.
fn items(rt: &impl Abort, alloc: Global, two: bool) -> Items {
    let mut items = Items::new(alloc);
    let item = Item {
        kind: Kind::Mutexinoutset,
        place: Place::Cell(9),
    };
    assert!(rt; items.push(item).is_ok());
    if two {
        assert!(rt; items.push(item).is_ok());
    }
    items
}

fn spawn(rt: &(impl Abort + AllocGlobal)) -> Action {
    let mut args = Args::new(rt.alloc());
    assert!(rt; args.push(-4).is_ok());
    let spawn = Spawn {
        child: TaskName::parse(rt.alloc(), b"0.1.2.3.4.7").expect(rt, "a name"),
        body: 12,
        args,
        items: items(rt, rt.alloc(), true),
        deferred: false,
    };
    Action::Spawn(Spawned::new(rt.alloc(), spawn).expect(rt, "memory is there"))
}

fn has_same_text(rt: &impl AllocGlobal, left: &Entry, right: &Entry) -> Result<bool, AllocError> {
    let left = format!(in rt.alloc(); "{left:?}")?;
    let right = format!(in rt.alloc(); "{right:?}")?;
    Ok(left.as_str() == right.as_str())
}

/// Adds the entry for which there is capacity by its action, where that has no name or list of its
/// own.
fn push(rt: &impl Abort, journal: &mut Journal, entry: Entry)
    requires { 0 < journal.old.room }
    ensures { length journal.old.items < length journal.new.items }
{
    if let Entry::Stepped { seat, event } = &entry {
        if !stands_apart(*seat, &event.action) {
            let new = journal.turn_for(&event.task).expect(rt, "a name");
            journal.push_short(*seat, new, &event.action);
            mem::forget(entry);
            return;
        }
    }
    journal.push_reserved(entry);
}

/// Adds the entry, whole or by its action, and asks for it and its seat.
fn enter(rt: &(impl Abort + AllocGlobal), journal: &mut Journal, entry: Entry, whole: bool) {
    let place = journal.len();
    let seat = seat_of(&entry);
    let kept = copy_of(&entry).expect(rt, "memory");
    match journal.reserve() {
        Ok(()) if whole => journal.push_reserved(entry),
        Ok(()) => push(rt, journal, entry),
        Err(_) => panic!(rt; "memory"),
    }
    assert_eq!(rt; journal.len(), place + 1);
    assert_eq!(rt; journal.are_below(seat), false);
    assert!(rt; place < journal.len());
    let again = journal.entry(place).expect(rt, "memory");
    assert_eq!(rt; seat_of(&again), seat);
    assert!(rt; has_same_text(rt, &again, &kept).unwrap_or(false));
    mem::forget((kept, again));
}

/// Adds the entry twice, in either way.
fn add(rt: &(impl Abort + AllocGlobal), journal: &mut Journal, entry: Entry) {
    let copy = copy_of(&entry).expect(rt, "memory");
    enter(rt, journal, entry, true);
    enter(rt, journal, copy, false);
}

fn add_steps(rt: &(impl Abort + AllocGlobal), journal: &mut Journal, seat: u32) {
    add(rt, journal, step(rt, seat, Action::Start));
    add(
        rt,
        journal,
        step(rt, seat, Action::Let { reg: 15, value: -7 }),
    );
    let load = Action::Load {
        reg: 3,
        cell: 65_535,
        value: i64::MAX,
    };
    add(rt, journal, step(rt, seat, load));
    let store = Action::Store {
        cell: 65_535,
        value: i64::MIN,
    };
    add(rt, journal, step(rt, seat, store));
    add(rt, journal, step(rt, seat, Action::Print { value: 5 }));
    add(rt, journal, step(rt, seat, spawn(rt)));
}

fn wait(rt: &(impl Abort + AllocGlobal), items: Items) -> Action {
    let Ok(items) = WaitItems::new(rt.alloc(), items) else {
        panic!(rt; "memory is there");
    };
    Action::Wait { items }
}

fn add_others(rt: &(impl Abort + AllocGlobal), journal: &mut Journal, seat: u32) {
    let none = Items::new(rt.alloc());
    add(rt, journal, step(rt, seat, wait(rt, none)));
    let one = items(rt, rt.alloc(), false);
    add(rt, journal, step(rt, seat, wait(rt, one)));
    add(rt, journal, step(rt, seat, Action::Open));
    add(rt, journal, step(rt, seat, Action::Close));
    add(rt, journal, step(rt, seat, Action::Test { yes: true }));
    add(rt, journal, step(rt, seat, Action::End));
    add(rt, journal, step(rt, seat, Action::Fault));
    let task = TaskName::root(rt.alloc());
    let id = StepId { task, k: u32::MAX };
    add(rt, journal, Entry::Rolled { seat, id });
}

#[test]
fn entries_come_back(rt: HostRuntime) {
    let mut journal = Journal::open(rt.alloc()).expect(&rt, "memory");
    add_steps(&rt, &mut journal, 64);
    add_others(&rt, &mut journal, 64);
    assert_eq!(&rt; journal.len(), 29);
    assert!(&rt; journal.are_below(65));
    assert!(&rt; journal.are_turns(64, 1) == false);
    mem::forget(journal);
}

#[test]
fn entries_of_any_seat_come_back(rt: HostRuntime) {
    let mut journal = Journal::open(rt.alloc()).expect(&rt, "memory");
    add_steps(&rt, &mut journal, u32::MAX);
    assert_eq!(&rt; journal.len(), 13);
    assert!(&rt; journal.are_turns(u32::MAX, 1));
    assert!(&rt; journal.are_turns(64, 1) == false);
    add_others(&rt, &mut journal, 256);
    mem::forget(journal);
}

/// Whether the entry at the slot is that of a group which the task began.
fn has_opened(rt: &(impl Abort + AllocGlobal), journal: &Journal, place: usize, name: &[u8]) {
    assert!(rt; place < journal.len());
    let entry = journal.entry(place).expect(rt, "memory");
    let wanted = step_of(rt, 1, name, Action::Open);
    assert!(rt; has_same_text(rt, &entry, &wanted).unwrap_or(false));
    mem::forget((entry, wanted));
}

#[test]
fn entries_of_tasks_in_turn_come_back(rt: HostRuntime) {
    let mut journal = Journal::open(rt.alloc()).expect(&rt, "memory");
    enter(
        &rt,
        &mut journal,
        step_of(&rt, 1, b"0", Action::Open),
        false,
    );
    enter(
        &rt,
        &mut journal,
        step_of(&rt, 1, b"0.1", Action::Open),
        false,
    );
    enter(
        &rt,
        &mut journal,
        step_of(&rt, 1, b"0.1", Action::Open),
        true,
    );
    enter(&rt, &mut journal, step_of(&rt, 1, b"0", Action::Open), true);
    has_opened(&rt, &journal, 1, b"0");
    has_opened(&rt, &journal, 2, b"0.1");
    has_opened(&rt, &journal, 3, b"0.1");
    has_opened(&rt, &journal, 4, b"0");
    mem::forget(journal);
}
