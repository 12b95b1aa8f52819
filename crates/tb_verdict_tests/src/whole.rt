//! What whole texts come to.

ghost use Rattle.std.specs.Prelude.{ℕ, List};
ghost use Rattle.tb_verdict.specs.Whole.{IsJudged};

use std::mem::forget;
use tb_runs::Fault;
use tb_verdict::{TextJudge, Verdict};

/// What a text comes to, without what its judge or its refusal holds.
#[derive(Clone, Copy, Debug, PartialEq, Eq)]
enum Comes {
    Legal { events: u32 },
    Refused { line: u64, number: u8 },
    Faulty { line: u64, fault: Fault },
    Memory,
}

fn without_judge(verdict: Verdict) -> Comes {
    match verdict {
        Verdict::Legal { events, judge } => {
            forget(judge);
            Comes::Legal { events }
        }
        Verdict::Refused { line, refusal } => {
            let number = refusal.number();
            forget(refusal);
            Comes::Refused { line, number }
        }
        Verdict::Faulty { line, fault } => Comes::Faulty { line, fault },
    }
}

fn judged(rt: &HostRuntime, lines: &[&[u8]]) -> Comes {
    let mut judge = TextJudge::new(rt.alloc());
    'lines: for at in 0..lines.len() {
        match judge.take_line(rt.alloc(), lines[at]) {
            Ok(event) => forget(event),
            Err(_) => {
                forget(judge);
                return Comes::Memory;
            }
        }
    }
    without_judge(judge.verdict())
}

/// Whether the line adds an event, and `None` where memory is wanted.
fn adds(rt: &HostRuntime, judge: &mut TextJudge, line: &[u8]) -> Option<bool>
    requires { (lines : List (List ℕ)) × IsJudged judge.old lines }
    ensures { (lines : List (List ℕ)) × IsJudged judge.new lines }
{
    match judge.take_line(rt.alloc(), line) {
        Ok(event) => {
            let added = event.is_some();
            forget(event);
            Some(added)
        }
        Err(_) => None,
    }
}

#[test]
fn a_legal_text(rt: HostRuntime) {
    let text: [&[u8]; 3] = [b"cells 0", b"0 start", b"0 end # of main"];
    assert!(rt; judged(&rt, &text) == Comes::Legal { events: 2 });
    assert!(rt; judged(&rt, &[b"", b"cells 7"]) == Comes::Legal { events: 0 });
}

#[test]
fn a_text_without_words(rt: HostRuntime) {
    let none = Comes::Faulty {
        line: 1,
        fault: Fault::NoCells,
    };
    assert!(rt; judged(&rt, &[]) == none);
    assert!(rt; judged(&rt, &[b"# nothing", b" "]) == none);
}

#[test]
fn the_first_ending_stays(rt: HostRuntime) {
    let text: [&[u8]; 5] = [
        b"cells 0",
        b"0 start",
        b"0 start",
        b"0 nothing",
        b"0.1 start",
    ];
    assert!(rt;
        judged(&rt, &text)
            == Comes::Refused {
                line: 3,
                number: 15
            }
    );
    let fault = Comes::Faulty {
        line: 2,
        fault: Fault::UnknownWord,
    };
    assert!(rt; judged(&rt, &[b"cells 0", b"0 nothing", b"0 end"]) == fault);
}

#[test]
fn a_judge_whose_judgement_has_ended(rt: HostRuntime) {
    let mut judge = TextJudge::new(rt.alloc());
    assert!(rt; adds(&rt, &mut judge, b"cells 0") == Some(false));
    assert!(rt; adds(&rt, &mut judge, b"0 start") == Some(true));
    assert!(rt; !judge.has_ended());
    assert!(rt; adds(&rt, &mut judge, b"cells 0") == Some(false));
    assert!(rt; judge.has_ended());
    assert!(rt; adds(&rt, &mut judge, b"0 end") == Some(false));
    forget(judge);
}
