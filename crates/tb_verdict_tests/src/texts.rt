//! Where the judgement of a text ends, and why.

use std::mem::forget;
use std::process::Abort;
use tb_verdict::{Ending, Judge, LineVerdict};

/// The line at which the judgement ends, with the code of the refusal, or 0 at a faulty line.
fn ending_of(rt: &HostRuntime, lines: &[&[u8]]) -> Option<(usize, u8)> {
    let mut judge = Judge::new(rt.alloc());
    let mut found = None;
    'lines: for at in 0..lines.len() {
        match judge.take_line(rt.alloc(), lines[at]) {
            Ok(LineVerdict::Taken { event }) => forget(event),
            Ok(LineVerdict::Ends { ending }) => {
                found = Some((at + 1, number_of(&ending)));
                forget(ending);
                break 'lines;
            }
            Err(_) => break 'lines,
        }
    }
    forget(judge);
    found
}

/// How many events these lines have, and the ordinal of the least task that hasn't ended after them.
fn left_of(rt: &HostRuntime, lines: &[&[u8]]) -> (Option<u32>, Option<u32>) {
    let mut judge = Judge::new(rt.alloc());
    'lines: for at in 0..lines.len() {
        match judge.take_line(rt.alloc(), lines[at]) {
            Ok(LineVerdict::Taken { event }) => forget(event),
            Ok(LineVerdict::Ends { ending }) => {
                forget(ending);
                break 'lines;
            }
            Err(_) => break 'lines,
        }
    }
    let events = judge.events();
    let least = match judge.next_unended(None) {
        Some(name) => name.ordinal(),
        None => None,
    };
    forget(judge);
    (events, least)
}

fn number_of(ending: &Ending) -> u8 {
    match ending {
        Ending::Faulty { .. } => 0,
        Ending::Refused { refusal } => refusal.number(),
    }
}

#[test]
fn an_event_comes_in_its_task_s_turn(rt: HostRuntime) {
    assert!(rt; ending_of(&rt, &[b"cells 1", b"0.1 start"]) == Some((2, 1)));
    assert!(rt; ending_of(&rt, &[b"cells 1", b"0#1 start", b"0#3 end"]) == Some((3, 19)));
    assert!(rt; ending_of(&rt, &[b"cells 1", b"0 start", b"0 print"]) == Some((3, 0)));
}

#[test]
fn a_load_has_the_number_of_its_cell(rt: HostRuntime) {
    let text: [&[u8]; 5] = [
        b"cells 1",
        b"cell 0 4",
        b"0 start",
        b"0 load r0 0 4",
        b"0 load r0 0 5",
    ];
    assert!(rt; ending_of(&rt, &text) == Some((5, 16)));
}

#[test]
fn a_start_waits_for_what_it_depends_on(rt: HostRuntime) {
    let text: [&[u8]; 8] = [
        b"cells 1",
        b"hist 6",
        b"0 start",
        b"0 spawn 0.1 t depend out 0",
        b"0 spawn 0.2 t depend in 0",
        b"0.1 start # ends later",
        b"",
        b"0.2 start",
    ];
    assert!(rt; ending_of(&rt, &text) == Some((8, 3)));
}

#[test]
fn a_text_ends_with_events_and_unended_tasks(rt: HostRuntime) {
    let text: [&[u8]; 5] = [
        b"# sum.c",
        b"cells 1",
        b"0 start",
        b"0 spawn 0.1 t",
        b"0 end",
    ];
    assert!(rt; left_of(&rt, &[b"", b"# sum.c"]) == (None, None));
    assert!(rt; left_of(&rt, &[b"cells 1"]) == (Some(0), None));
    assert!(rt; left_of(&rt, &[b"cells 1", b"hist 0"]) == (Some(0), None));
    assert!(rt; left_of(&rt, &text) == (Some(3), Some(1)));
}
