//! The lines that follow each statement of programs with blocks.

use std::mem;
use std::process::Abort;
use std::test::Fail;
use tb_read::read;

/// The row of the line.
fn row_of(rows: &[(u32, u32, u32)], line: u32) -> Option<(u32, u32, u32)> {
    for row in rows {
        if row.0 == line {
            return Some(*row);
        }
    }
    None
}

/// Asks for the positions of a text, each with the lines that follow it: after a test that says yes
/// or another statement, and after a test that says no.
fn expect_flow(
    rt: &(impl Abort + AllocGlobal),
    text: &[u8],
    rows: &[(u32, u32, u32)],
) -> Result<(), Fail> {
    let program = read(rt.alloc(), text)?;
    for line in 0u32..40 {
        let found = program.instr(line).map(|i| (i.line, i.next, i.otherwise));
        assert_eq!(rt; found, row_of(rows, line), "line {line}");
    }
    mem::forget(program);
    Ok(())
}

#[test]
fn an_if_with_an_else(rt: HostRuntime) -> Result<(), Fail> {
    let text = b"cells 0\nbody main 0\nif r0 == 0\nprint 1\n\nelse\nprint 2\nend\nprint 3\nend\n";
    let rows = [
        (2, 3, 3),
        (3, 4, 7),
        (4, 9, 9),
        (7, 9, 9),
        (9, 10, 10),
        (10, 11, 11),
    ];
    expect_flow(&rt, text, &rows)
}

#[test]
fn a_while_with_an_if_at_its_end(rt: HostRuntime) -> Result<(), Fail> {
    let text =
        b"cells 0\nbody main 0\nwhile r0 < 3\nlet r0 r0 + 1\nif r0 != 2\nprint r0\nend\nend\nend\n";
    let rows = [
        (2, 3, 3),
        (3, 4, 9),
        (4, 5, 5),
        (5, 6, 3),
        (6, 3, 3),
        (9, 10, 10),
    ];
    expect_flow(&rt, text, &rows)
}

/// Blocks without statements are passed over, and that of a `while` leads to its `while`.
#[test]
fn empty_blocks(rt: HostRuntime) -> Result<(), Fail> {
    let text =
        b"cells 0\nbody main 0\nif 0 == 0\nelse\nend\nwhile 1 < 0\n# c\nend\nif 0 == 1\nelse\nprint 1\nend\nend\n";
    let rows = [
        (2, 3, 3),
        (3, 6, 6),
        (6, 6, 9),
        (9, 13, 11),
        (11, 13, 13),
        (13, 14, 14),
    ];
    expect_flow(&rt, text, &rows)
}

/// The end of a group is a statement; an `else` in front of an `end` of a `while` leads back.
#[test]
fn groups_in_blocks(rt: HostRuntime) -> Result<(), Fail> {
    let text =
        b"cells 0\nbody main 0\ntaskgroup\nwhile r0 < 1\nif r1 < 1\ntaskgroup\nend\nelse\nend\nend\nend\ntaskwait\nend\n";
    let rows = [
        (2, 3, 3),
        (3, 4, 4),
        (4, 5, 11),
        (5, 6, 4),
        (6, 7, 7),
        (7, 4, 4),
        (11, 12, 12),
        (12, 13, 13),
        (13, 14, 14),
    ];
    expect_flow(&rt, text, &rows)
}

/// Of two nested tests each has its own `else`.
#[test]
fn each_else_is_of_its_own_if(rt: HostRuntime) -> Result<(), Fail> {
    let text =
        b"cells 0\nbody main 0\nif 1 < 2\nif 3 < 4\nprint 1\nelse\nprint 2\nend\nelse\nif 5 < 6\nend\nend\nend\nbody b 0\nwhile 0 < 1\nwhile 0 < 2\nend\nend\nend\n";
    let rows = [
        (2, 3, 3),
        (3, 4, 10),
        (4, 5, 7),
        (5, 13, 13),
        (7, 13, 13),
        (10, 13, 13),
        (13, 14, 14),
        (14, 15, 15),
        (15, 16, 19),
        (16, 16, 15),
        (19, 20, 20),
    ];
    expect_flow(&rt, text, &rows)
}
