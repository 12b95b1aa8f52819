//! Accepted texts and their programs.

use std::mem;
use std::process::Abort;
use std::test::Fail;
use tb_model::Statement;
use tb_read::{Program, read};

#[test]
fn an_accepted_text_is_a_program(rt: HostRuntime) -> Result<(), Fail> {
    let text =
        b"cells 3 # all\n\ncell 1 5\nbody main 0\n store 0 r0\n # c\n\nprint -7\nend\nbody b 2\nend";
    let program = read(rt.alloc(), text)?;
    expect_headings(&rt, &program);
    let outcome = expect_statements(&rt, &program);
    mem::forget(program);
    outcome
}

fn expect_headings(rt: &impl Abort, program: &Program) {
    assert_eq!(rt; program.cells(), [0, 5, 0].as_slice());
    assert_eq!(rt; program.root_line(), 4);
    assert_eq!(rt; program.body_name(10), Some("b"));
    assert_eq!(rt; program.body_name(9), None);
}

fn expect_statements(rt: &impl Abort, program: &Program) -> Result<(), Fail> {
    let store = program.instr(5).ok_or("no store")?;
    assert_eq!(rt; store.line, 5);
    assert_eq!(rt; store.next, 8);
    assert_eq!(rt; store.cells, 3);
    assert!(rt; program.instr(1).is_none());
    assert!(rt; program.instr(6).is_none());
    assert!(rt; program.instr(12).is_none());
    let start = program.instr(4).ok_or("no start")?;
    assert_eq!(rt; start.next, 5);
    assert!(rt; matches!(&start.statement, Statement::Start));
    let end = statement_at(program, 9)?;
    assert!(rt; matches!(end, Statement::End));
    Ok(())
}

/// Carriage returns are blanks, bytes of a comment are any, the last line may lack its line feed,
/// numbers may have leading zeros or be `-0`, and `if` and `depend` can be names.
#[test]
fn texts_that_are_accepted(rt: HostRuntime) -> Result<(), Fail> {
    let texts: [&[u8]; 6] = [
        b"cells 1\nbody main 0\nstore 0 7\nprint 7\nend\n",
        b"cells 1\r\nbody main 0\r\nstore 0 7\r\nprint 7\r\nend\r\n",
        b"cells -0\nbody main -0\nprint -0\nend",
        b"cells 0001 #\x00\xff\n#\n\ncell 00 -007\nbody main 00\nend\n",
        b"cells 1\nbody main 0\ntask if if 1 == 2\ntask depend depend in 0\nend\nbody if 0\nend\nbody depend 0\nend\n",
        b"cells 0\nbody main 0\ntask main depend out all\ntask main depend inout all\ntaskwait depend out all\nend\n",
    ];
    for text in texts {
        match read(rt.alloc(), text) {
            Ok(program) => mem::forget(program),
            Err(fault) => panic!(rt; "{fault:?} of {text:?}"),
        }
    }
    Ok(())
}

/// The statement of a line as it is stored.
fn statement_at(program: &Program, line: u32) -> Result<&Statement, Fail> {
    Ok(&program.instr(line).ok_or("no statement")?.statement)
}

/// A task line retains its body's line, its arguments, its items and its `if` clause.
#[test]
fn a_task_line_is_kept_whole(rt: HostRuntime) -> Result<(), Fail> {
    let text =
        b"cells 9\nbody main 0\ntask b r1 -3 depend in r2 depend out all if r0 <= 5\nend\nbody b 2\nend\n";
    let program = read(rt.alloc(), text)?;
    let outcome = expect_task(&rt, &program);
    mem::forget(program);
    outcome
}

fn expect_task(rt: &(impl Abort + AllocGlobal), program: &Program) -> Result<(), Fail> {
    let Statement::Task {
        body,
        args,
        depends,
        condition,
    } = statement_at(program, 3)?
    else {
        return Err(Fail::from("no task"));
    };
    assert_eq!(rt; *body, 5);
    let args = format!(in rt.alloc(); "{:?}", args.as_slice())?;
    assert_eq!(rt; args.as_str(), "[Register(1), Number(-3)]");
    let depends = format!(in rt.alloc(); "{:?}", depends.as_slice())?;
    assert_eq!(rt;
        depends.as_str(),
        "[Clause { kind: In, address: Cell(Register(2)) }, Clause { kind: Out, address: All }]"
    );
    let condition = format!(in rt.alloc(); "{:?}", condition.get())?;
    assert_eq!(rt;
        condition.as_str(),
        "Some(Condition { left: Register(0), comparison: AtMost, right: Number(5) })"
    );
    Ok(())
}
