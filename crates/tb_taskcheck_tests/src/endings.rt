//! How the judgement of a text ends.

ghost use Rattle.std.specs.Prelude.{◌≡◌};

use crate::fakes::{Endless, FailsAt, Taken, is_judged};
use tb_runs::Fault;
use tb_taskcheck::{Halt, Outcome, judge};

const TEXT: &[u8] = b"cells 1\r\n# c\n\n0 start\n0 spawn 0.1 t\n0#3 end";

const REPORT: &str = "legal 3\nunended 1\n0.1\nraces 0\n";

fn in_pieces(piece: usize, fails_at: u64) -> FailsAt<'static>
    ensures { result.failed ≡ 0 }
{
    FailsAt {
        bytes: TEXT,
        piece,
        calls: 0,
        fails_at,
        failed: 0,
    }
}

/// A report is the same however the reader cuts the text.
#[test]
fn lines_come_whole_from_pieces(rt: HostRuntime) {
    for piece in [1usize, 2, 3, 5, 100] {
        assert!(rt;
            is_judged(
                &rt,
                rt.alloc(),
                in_pieces(piece, 0),
                1000,
                REPORT,
                Ok(Outcome::Unended)
            ),
            "{piece}"
        );
    }
}

#[test]
fn a_read_that_fails(rt: HostRuntime) {
    for fails_at in 1u64..5 {
        assert!(rt;
            is_judged(
                &rt,
                rt.alloc(),
                in_pieces(10, fails_at),
                1000,
                "",
                Err(Halt::Read)
            ),
            "{fails_at}"
        );
    }
}

/// Of a report that can't be written whole a beginning is.
#[test]
fn a_write_that_fails(rt: HostRuntime) {
    for room in 0..REPORT.len() {
        let mut source = in_pieces(100, 0);
        let mut sink = Taken {
            bytes: Vec::new(rt.alloc()),
            room,
            failed: 0,
        };
        let judged = judge(&rt, rt.alloc(), &mut source, &mut sink);
        assert!(rt; judged == Err(Halt::Write), "{room}");
        assert!(rt; sink.bytes.len() == room, "{room}");
        assert!(rt;
            REPORT.as_bytes().starts_with(sink.bytes.as_slice()),
            "{room}"
        );
    }
}

/// A line without an end is faulty, and no more of it is read than shows that.
#[test]
fn a_line_without_an_end(rt: HostRuntime) {
    let mut source = Endless {
        calls: 0,
        failed: 0,
    };
    let mut sink = Taken {
        bytes: Vec::new(rt.alloc()),
        room: 1000,
        failed: 0,
    };
    let fault = Halt::Faulty {
        line: 1,
        fault: Fault::TooLarge,
    };
    assert!(rt; judge(&rt, rt.alloc(), &mut source, &mut sink) == Err(fault));
    assert!(rt; source.calls < 10);
    assert!(rt; sink.bytes.is_empty());
}

#[test]
fn statuses(rt: HostRuntime) {
    assert!(rt; Outcome::Over.status() == 0);
    assert!(rt; Outcome::Refused.status() == 1);
    assert!(rt; Outcome::Racing.status() == 2);
    assert!(rt; Outcome::Unended.status() == 3);
    assert!(rt; Halt::Memory.status() == 3);
}
