//! The limits of a text, each met and passed, and the text of a fault.

use std::alloc::{AllocError, Global};
use std::mem;
use std::process::Abort;
use std::test::Fail;
use tb_read::{FaultKind, ReadFault, read};

fn fault(text: &[u8], alloc: Global) -> Option<ReadFault> {
    match read(alloc, text) {
        Ok(program) => {
            mem::forget(program);
            None
        }
        Err(fault) => Some(fault),
    }
}

/// The parts in a row.
fn joined(alloc: Global, parts: &[&[u8]]) -> Result<Vec<u8>, AllocError> {
    let mut text = Vec::new(alloc);
    for part in parts {
        text.extend_from_slice(part)?;
    }
    Ok(text)
}

/// The fault of the parts in a row.
fn fault_of(alloc: Global, parts: &[&[u8]]) -> Result<Option<ReadFault>, AllocError> {
    let text = joined(alloc, parts)?;
    let found = fault(&text, alloc);
    mem::forget(text);
    Ok(found)
}

/// Whether the fault is at this line, for a text that is too large there.
fn is_too_large(found: Option<ReadFault>, line: u32) -> bool {
    match found {
        Some(
            ReadFault {
                line: at,
                kind: FaultKind::TooLarge,
            },
        ) => at == line,
        _ => false,
    }
}

/// The kind of the fault of the parts in a row.
fn kind_of(alloc: Global, parts: &[&[u8]]) -> Result<Option<FaultKind>, AllocError> {
    match fault_of(alloc, parts)? {
        Some(fault) => Ok(Some(fault.kind)),
        None => Ok(None),
    }
}

#[test]
fn bytes_of_a_line_up_to_the_limit(rt: HostRuntime) -> Result<(), Fail> {
    let alloc = rt.alloc();
    let blanks = vec![in alloc; b' '; 1021]?;
    let full = kind_of(alloc, &[b"cells 1\nend", &blanks, b"\n"])?;
    assert_eq!(rt; full, Some(FaultKind::Nesting));
    let long = kind_of(alloc, &[b"cells 1\nend", &blanks, b" \n"])?;
    assert_eq!(rt; long, Some(FaultKind::TooLarge));
    Ok(())
}

#[test]
fn items_of_a_line_up_to_the_limit(rt: HostRuntime) -> Result<(), Fail> {
    let alloc = rt.alloc();
    let mut text = Vec::from_slice(alloc, b"cells 1\nbody main 0\ntaskwait")?;
    for _ in 0..64 {
        text.extend_from_slice(b" depend in 0")?;
    }
    let met = fault_of(alloc, &[&text, b"\nend\n"])?;
    assert!(rt; met.is_none(), "{met:?}");
    let passed = kind_of(alloc, &[&text, b" depend in 0\nend\n"])?;
    assert_eq!(rt; passed, Some(FaultKind::TooLarge));
    Ok(())
}

#[test]
fn lines_up_to_the_limit(rt: HostRuntime) -> Result<(), Fail> {
    let alloc = rt.alloc();
    let feeds = vec![in alloc; b'\n'; 65533]?;
    let most = fault_of(alloc, &[b"cells 0\nbody main 0\nend\n", &feeds])?;
    assert!(rt; most.is_none(), "{most:?}");
    let more = fault_of(alloc, &[b"cells 0\nbody main 0\nend\n", &feeds, b"\n"])?;
    assert!(rt; is_too_large(more, 65537), "{more:?}");
    Ok(())
}

#[test]
fn bodies_up_to_the_limit(rt: HostRuntime) -> Result<(), Fail> {
    let mut text = String::new(rt.alloc());
    text.push_str("cells 0\nbody main 0\nend\n")?;
    for n in 1u32..1024 {
        write!(text, "body b{n} 0\nend\n")?;
    }
    let most = fault(text.as_bytes(), rt.alloc());
    assert!(rt; most.is_none(), "{most:?}");
    text.push_str("body b1024 0\nend\n")?;
    let more = fault(text.as_bytes(), rt.alloc());
    assert!(rt; is_too_large(more, 2050), "{more:?}");
    Ok(())
}

#[test]
fn a_fault_has_a_text(rt: HostRuntime) -> Result<(), Fail> {
    let found = fault(b"cells 1\nbody main 0\nprint r16\nend", rt.alloc()).ok_or("no fault")?;
    let text = format!(in rt.alloc(); "{found}")?;
    assert!(rt; text.as_str() == "line 3: Register", "{text}");
    assert_eq!(rt; found.kind.number(), 10);
    Ok(())
}
