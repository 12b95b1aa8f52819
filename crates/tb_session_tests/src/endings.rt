//! How sessions end.

use crate::fakes::{FailsAt, is_session, whole, with_commands, written};
use std::alloc::Global;
use std::test::Fail;
use tb_read::{FaultKind, ReadFault};
use tb_session::Halt;

#[test]
fn programs_that_are_refused(rt: HostRuntime) -> Result<(), Fail> {
    let alloc = rt.alloc();
    let rows: [(&[u8], u32, FaultKind); 2] = [
        (b"", 1, FaultKind::NoCells),
        (
            b"cells 1\nbody main 0\nend\nfaulty\n---\nstep 0\n",
            4,
            FaultKind::UnknownWord,
        ),
    ];
    for (text, line, kind) in rows {
        let halt = Some(Halt::Refused(ReadFault { line, kind }));
        assert!(rt; is_session(&rt, alloc, whole(text), 10_000, 100, "", halt));
    }
    Ok(())
}

/// A session is the same however the reader cuts its lines.
#[test]
fn lines_come_whole_from_pieces(rt: HostRuntime) {
    let text =
        b"cells 1\r\n# c\n\nbody main 0\nstore 0 7\nend\n---\r\nstep 0\n\nstep 0 # x\nstep 0";
    let want = "0#1 start\n0#2 store 0 7\n0#3 end\n";
    for piece in [1usize, 2, 3, 5, 100] {
        let source = FailsAt {
            bytes: text,
            piece,
            calls: 0,
            fails_at: 0,
            failed: 0,
        };
        assert!(rt;
            is_session(&rt, rt.alloc(), source, 10_000, 100, want, None),
            "{piece}"
        );
    }
}

#[test]
fn a_write_that_fails_ends_the_session(rt: HostRuntime) -> Result<(), Fail> {
    let alloc = rt.alloc();
    let text = with_commands(alloc, "step 0\nstep 0\n")?;
    let all = "0#1 start\n0#2 store 0 7\n";
    for room in 0..all.len() {
        let (want, _) = all.split_at(room);
        assert!(rt;
            is_session(&rt, alloc, whole(&text), room, 100, want, Some(Halt::Write)),
            "{room}"
        );
    }
    assert!(rt; is_session(&rt, alloc, whole(&text), all.len(), 100, all, None));
    Ok(())
}

const ENDLESS: &[u8] = b"cells 0\nbody main 0\nwhile 0 == 0\nend\nend\n---\n";

/// The replies to `run 4500` and `hist` in a session of that program, 70,905 and 70,900 bytes.
fn long_replies(alloc: Global) -> Result<String, Fail> {
    let mut lines = String::from_str(alloc, "0#1 start\n")?;
    for k in 2..4501u32 {
        writeln!(lines, "0#{k} test yes")?;
    }
    Ok(format!(in alloc; "{lines}ran 4500 limit\nhist 4500\n{lines}")?)
}

/// Nothing is written twice or left out, and a write may fail in each piece.
#[test]
fn long_replies_go_out_in_pieces(rt: HostRuntime) -> Result<(), Fail> {
    let alloc = rt.alloc();
    for (commands, count) in [
        ("run 4000\nhist\n", 2),
        ("run 4500\nhist\n", 4),
        ("go 1 4500\n", 2),
    ] {
        let mut text = Vec::from_slice(alloc, ENDLESS)?;
        text.extend_from_slice(commands.as_bytes())?;
        let (_, calls, halt) = written(&rt, alloc, whole(&text), 150_000, 5000);
        assert_eq!(rt; (calls, halt), (count, None), "{commands}");
    }
    let all = long_replies(alloc)?;
    let mut text = Vec::from_slice(alloc, ENDLESS)?;
    text.extend_from_slice(b"run 4500\nhist\n")?;
    for room in [
        0usize, 1, 65_535, 65_536, 65_600, 70_904, 70_905, 136_440, 136_500, 141_804,
    ] {
        let (bytes, _, halt) = written(&rt, alloc, whole(&text), room, 5000);
        assert_eq!(rt; (bytes.len(), halt), (room, Some(Halt::Write)));
        assert!(rt; all.as_bytes().starts_with(&bytes), "{room}");
    }
    let (bytes, _, halt) = written(&rt, alloc, whole(&text), 141_805, 5000);
    assert_eq!(rt; halt, None);
    assert_eq!(rt; bytes.as_slice(), all.as_bytes());
    Ok(())
}

#[test]
fn a_read_that_fails_ends_the_session(rt: HostRuntime) -> Result<(), Fail> {
    let alloc = rt.alloc();
    let text = with_commands(alloc, "step 0\nste")?;
    // By single bytes, so that each index of the text is one where a read fails.
    for fails_at in 1..text.len() as u64 + 2 {
        // The command's line feed is the fourth byte from the end.
        let is_early = fails_at.saturating_add(3) <= text.len() as u64;
        let want = if is_early { "" } else { "0#1 start\n" };
        let source = FailsAt {
            bytes: &text,
            piece: 1,
            calls: 0,
            fails_at,
            failed: 0,
        };
        assert!(rt;
            is_session(&rt, alloc, source, 100, 100, want, Some(Halt::Read)),
            "{fails_at}"
        );
    }
    let faulty = FailsAt {
        bytes: b"faulty\ncells 1\nbody main 0\n",
        piece: 9,
        calls: 0,
        fails_at: 3,
        failed: 0,
    };
    assert!(rt; is_session(&rt, alloc, faulty, 100, 100, "", Some(Halt::Read)));
    Ok(())
}

#[test]
fn halts_have_texts_and_statuses(rt: HostRuntime) -> Result<(), Fail> {
    let fault = ReadFault {
        line: 3,
        kind: FaultKind::Register,
    };
    for (halt, want, status) in [
        (Halt::Refused(fault), "line 3: Register", 1),
        (Halt::Read, "read", 3),
        (Halt::Write, "write", 3),
        (Halt::Memory, "memory", 3),
        (Halt::Journal, "journal", 3),
    ] {
        let text = format!(in rt.alloc(); "{halt}")?;
        assert_eq!(rt; text.as_str(), want);
        assert_eq!(rt; halt.status(), status);
    }
    Ok(())
}
