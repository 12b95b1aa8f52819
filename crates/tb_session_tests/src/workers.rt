//! Sessions of several workers.

use crate::fakes::ends_with;
use std::test::Fail;

/// Eight tasks that exclude each other, each of which adds its number to the one cell.
const SUMS: &str = "cells 1\nbody main 0\n\
    task add 1 depend mutexinoutset 0\ntask add 2 depend mutexinoutset 0\n\
    task add 3 depend mutexinoutset 0\ntask add 4 depend mutexinoutset 0\n\
    task add 5 depend mutexinoutset 0\ntask add 6 depend mutexinoutset 0\n\
    task add 7 depend mutexinoutset 0\ntask add 8 depend mutexinoutset 0\nend\n\
    body add 1\nload r1 0\nlet r1 r1 + r0\nstore 0 r1\nend\n---\n";

/// Whoever executes the steps, and in whatever order, the sum is one.
#[test]
fn four_workers_add_up(rt: HostRuntime) -> Result<(), Fail> {
    let text = format!(in rt.alloc(); "{SUMS}go 4 1000\ncells\n")?;
    assert!(rt;
        ends_with(
            &rt,
            rt.alloc(),
            text.as_bytes(),
            "\nran 50 done\ncells 1\n0 36\n"
        )
    );
    Ok(())
}

/// A breakpoint stops all four, and the next `go` goes on.
#[test]
fn a_breakpoint_stops_four_workers(rt: HostRuntime) {
    let text = b"cells 3\nbody main 0\nstore 1 1\nstore 2 5\nprint 1\nend\n---\n\
        break cell 2\ngo 4 1000\nbreaks\ngo 4 1000\n";
    let want = "break 1\n0#1 start\n0#2 store 1 1\n0#3 store 2 5\nran 3 break\n\
        breaks 1\n1 cell 2\n0#4 print 1\n0#5 end\nran 2 done\n";
    assert!(rt; ends_with(&rt, rt.alloc(), text, want));
}

/// As many steps are executed as are asked for, and as the journal has capacity for.
#[test]
fn workers_stop_at_the_limit(rt: HostRuntime) -> Result<(), Fail> {
    let text = format!(in rt.alloc(); "{SUMS}go 3 20\ngo 2 0\ngo 5 1\n")?;
    assert!(rt;
        ends_with(
            &rt,
            rt.alloc(),
            text.as_bytes(),
            "\nran 20 limit\nran 0 limit\nerror number\n"
        )
    );
    Ok(())
}
