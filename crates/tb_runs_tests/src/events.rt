//! What a line says.

use indexmap::IndexMap;
use std::process::Abort;
use tb_model::{Action, Event};
use tb_runs::{Said, Stage, read_event, read_line};

/// The event that the line says, with the ordinal of its step.
fn event_of(rt: &HostRuntime, line: &[u8]) -> Option<(Option<u64>, Event)> {
    match read_event(rt.alloc(), 2, line) {
        Ok(Some(Said::Event { step, event })) => Some((step, event)),
        _ => None,
    }
}

#[test]
fn a_line_in_front_of_the_events_is_a_cell_or_hist(rt: HostRuntime) {
    let firsts = IndexMap::new(rt.alloc());
    let stage = Stage::Cells { count: 2 };
    let cell = read_line(rt.alloc(), &firsts, stage, b"cell 1 -4");
    assert!(rt; matches!(cell, Ok(Some(Said::Cell { cell: 1, value: -4 }))));
    let hist = read_line(rt.alloc(), &firsts, stage, b"hist 3");
    assert!(rt; matches!(hist, Ok(Some(Said::Hist))));
    let nothing = read_line(rt.alloc(), &firsts, stage, b"  # a comment \xff");
    assert!(rt; matches!(nothing, Ok(None)));
}

#[test]
fn an_event_has_its_task_its_number_and_its_action(rt: HostRuntime) {
    let Some((step, event)) = event_of(&rt, b"0.1.4294967295#7 load r15 1 -9 # a.c:3") else {
        panic!(rt; "no event");
    };
    assert!(rt; step == Some(7));
    assert!(rt; event.task.ordinal() == Some(4_294_967_295));
    assert!(rt;
        matches!(
            event.action,
            Action::Load {
                reg: 15,
                cell: 1,
                value: -9
            }
        )
    );
}

#[test]
fn a_spawn_has_its_arguments_and_items(rt: HostRuntime) {
    let line = b"0 spawn 0.1 t 4 -5 depend out all depend in 1 undeferred";
    let Some((None, event)) = event_of(&rt, line) else {
        panic!(rt; "no event");
    };
    let Action::Spawn(spawned) = &event.action else {
        panic!(rt; "no spawn");
    };
    let spawn = spawned.get();
    assert!(rt; spawn.args.as_slice() == [4, -5].as_slice());
    assert!(rt; spawn.items.as_slice().len() == 2);
    assert!(rt; !spawn.deferred);
}
