//! The fault of a line is that of its first wrong word from the left.

use indexmap::IndexMap;
use std::process::Abort;
use tb_runs::{Fault, Stage, Unread, read_line};

fn fault_of(rt: &HostRuntime, stage: Stage, line: &[u8]) -> Option<Fault> {
    let firsts = IndexMap::new(rt.alloc());
    match read_line(rt.alloc(), &firsts, stage, line) {
        Err(Unread::Faulty(fault)) => Some(fault),
        _ => None,
    }
}

/// Whether each line has the fault at the stage.
fn are_faulty(rt: &HostRuntime, stage: Stage, lines: &[(&[u8], Fault)]) -> bool {
    for (line, fault) in lines {
        if fault_of(rt, stage, line) != Some(*fault) {
            return false;
        }
    }
    true
}

#[test]
fn a_text_begins_with_its_cells(rt: HostRuntime) {
    let lines: [(&[u8], Fault); 4] = [
        (b"cell 0 1", Fault::NoCells),
        (b"cells -1", Fault::BadNumber),
        (b"cells 134217729", Fault::TooLarge),
        (b"cells 1 1", Fault::Arity),
    ];
    assert!(rt; are_faulty(&rt, Stage::Begin, &lines));
}

#[test]
fn each_word_has_its_place(rt: HostRuntime) {
    let lines: [(&[u8], Fault); 22] = [
        (b"1 start", Fault::BadName),
        (b"0.01 start", Fault::BadName),
        (b"0.1. start", Fault::BadName),
        (b"0#0 start", Fault::BadName),
        (b"0#10000000000 start", Fault::BadName),
        (b"0 spawn 0.4294967296 t", Fault::BadName),
        (b"cell 0 5", Fault::BadName),
        (b"0", Fault::Arity),
        (b"0 start 1", Fault::Arity),
        (b"0 jump", Fault::UnknownWord),
        (b"0 test maybe", Fault::UnknownWord),
        (b"0 spawn 0.1 9x", Fault::UnknownWord),
        (b"0 let r16 x", Fault::Register),
        (b"0 load r0 2 x", Fault::CellRange),
        (b"0 print 9223372036854775808", Fault::BadNumber),
        (b"0 print \x01", Fault::NotText),
        (b"0 spawn 0.1 t depend sink 0", Fault::DependType),
        (b"0 spawn 0.1 t depend in all", Fault::DependType),
        (b"0 wait depend mutexinoutset 0", Fault::DependType),
        (b"0 spawn 0.1 t depend out", Fault::Arity),
        (
            b"0 spawn 0.1 t 0 0 0 0 0 0 0 0 0 0 0 0 0 0 0 0 0",
            Fault::TooLarge,
        ),
        (b"0 spawn 0.1 t undeferred 1", Fault::Arity),
    ];
    assert!(rt; are_faulty(&rt, Stage::Events { count: 2 }, &lines));
}

#[test]
fn a_cell_has_one_first_number(rt: HostRuntime) {
    let mut firsts = IndexMap::new(rt.alloc());
    assert!(rt; firsts.insert(1, 4).is_ok());
    let again = read_line(rt.alloc(), &firsts, Stage::Cells { count: 2 }, b"cell 01 2");
    assert!(rt; matches!(again, Err(Unread::Faulty(Fault::Duplicate))));
}
