//! The races that a report lists. The reports are those of the definitions, worked out apart.

use crate::fakes::{FailsAt, is_judged};
use std::alloc::{AllocError, Global};
use std::sync::Wait;
use std::test::Fail;
use tb_taskcheck::Outcome;

/// The clause of tasks that aren't under way at once.
const EXCLUDED: &str = " depend mutexinoutset 0";

/// A store and a load that nothing orders, and then two stores that exclusion separates.
const EXCLUDED_LAST: &[u8] = b"\
    cells 2\n\
    0 start\n\
    0 spawn 0.1 t depend mutexinoutset 0\n\
    0 spawn 0.2 t depend mutexinoutset 0\n\
    0 store 1 5\n\
    0.1 start\n\
    0.1 load r0 1 5\n\
    0.1 store 0 1\n\
    0.1 end\n\
    0.2 start\n\
    0.2 store 0 2\n\
    0.2 end\n\
    0 end\n";

/// Two children store to one cell, spawned with these clauses. The root's end is left out.
fn two_stores(alloc: Global, first: &str, second: &str) -> Result<String, AllocError> {
    format!(in alloc;
        "cells 2\n0 start\n0 spawn 0.1 t{first}\n0 spawn 0.2 t{second}\n0.1 start\n0.1 store 0 1\n0.1 end\n0.2 start\n0.2 store 0 2\n0.2 end\n"
    )
}

/// Whether the report of the text is this one, and says this.
fn is_reported<R: Wait>(
    rt: &R,
    alloc: Global,
    text: &[u8],
    report: &str,
    outcome: Outcome,
) -> bool {
    let source = FailsAt {
        bytes: text,
        piece: 1000,
        calls: 0,
        fails_at: 0,
        failed: 0,
    };
    is_judged(rt, alloc, source, 1000, report, Ok(outcome))
}

/// A race is reported before an unended task.
#[test]
fn a_race(rt: HostRuntime) -> Result<(), Fail> {
    let alloc = rt.alloc();
    let mut text = two_stores(alloc, "", "")?;
    let report = "legal 9\nunended 1\n0\nraces 1\n0.1#2 0.2#2 cell 0\n";
    assert!(rt; is_reported(&rt, alloc, text.as_bytes(), report, Outcome::Racing));
    text.push_str("0 end\n")?;
    let report = "legal 10\nunended 0\nraces 1\n0.1#2 0.2#2 cell 0\n";
    assert!(rt; is_reported(&rt, alloc, text.as_bytes(), report, Outcome::Racing));
    Ok(())
}

/// Two tasks that exclude each other race apart.
#[test]
fn a_race_under_exclusion(rt: HostRuntime) -> Result<(), Fail> {
    let alloc = rt.alloc();
    let mut text = two_stores(alloc, EXCLUDED, EXCLUDED)?;
    let report = "legal 9\nunended 1\n0\nraces 1\n0.1#2 0.2#2 cell 0 apart\n";
    assert!(rt; is_reported(&rt, alloc, text.as_bytes(), report, Outcome::Unended));
    text.push_str("0 end\n")?;
    let report = "legal 10\nunended 0\nraces 1\n0.1#2 0.2#2 cell 0 apart\n";
    assert!(rt; is_reported(&rt, alloc, text.as_bytes(), report, Outcome::Over));
    Ok(())
}

/// A dependence puts the one in front of the other.
#[test]
fn no_race(rt: HostRuntime) -> Result<(), Fail> {
    let alloc = rt.alloc();
    let mut text = two_stores(alloc, " depend out 0", " depend in 0")?;
    let report = "legal 9\nunended 1\n0\nraces 0\n";
    assert!(rt; is_reported(&rt, alloc, text.as_bytes(), report, Outcome::Unended));
    text.push_str("0 end\n")?;
    let report = "legal 10\nunended 0\nraces 0\n";
    assert!(rt; is_reported(&rt, alloc, text.as_bytes(), report, Outcome::Over));
    Ok(())
}

/// Of two races the one that exclusion doesn't separate decides, whichever comes first.
#[test]
fn two_races(rt: HostRuntime) -> Result<(), Fail> {
    let alloc = rt.alloc();
    let mut text = two_stores(alloc, EXCLUDED, EXCLUDED)?;
    text.push_str("0 load r0 0 2\n0 end\n")?;
    let report = "legal 11\nunended 0\nraces 2\n0.1#2 0.2#2 cell 0 apart\n0.2#2 0#4 cell 0\n";
    assert!(rt; is_reported(&rt, alloc, text.as_bytes(), report, Outcome::Racing));
    let report = "legal 12\nunended 0\nraces 2\n0#4 0.1#2 cell 1\n0.1#3 0.2#2 cell 0 apart\n";
    assert!(rt; is_reported(&rt, alloc, EXCLUDED_LAST, report, Outcome::Racing));
    Ok(())
}
