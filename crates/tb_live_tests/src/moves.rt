//! Lists of moves.

ghost use Rattle.std.specs.Prelude.{◌≤◌};

use std::alloc::Global;
use std::mem;
use tb_live::{Answer, Live, Move};
use tb_model::{StepId, TaskName};
use tb_read::read;

const TEXT: &[u8] = b"cells 1\nbody main 0\n  store 0 7\n  print 7\nend\n";

/// The moves, and for each its answer: 100 and more for one that is made, else the code of the
/// refusal.
const MOVES: [(&str, &str, u32); 8] = [
    ("step", "0", 100),
    ("step", "0", 100),
    ("step", "0.1", 1),
    ("undo", "0#1", 2),
    ("step", "0", 100),
    ("undo", "0#3", 101),
    ("roll", "0#1", 102),
    ("roll", "0#1", 1),
];

fn opened(alloc: Global) -> Option<Live> {
    let program = match read(alloc, TEXT) {
        Ok(program) => program,
        Err(_) => return None,
    };
    match Live::open(alloc, program, 20, 1) {
        Ok(live) => Some(live),
        Err(_) => None,
    }
}

fn move_of(alloc: Global, word: &str, text: &str) -> Option<Move> {
    match word {
        "step" => Some(Move::Step(TaskName::parse(alloc, text.as_bytes()).ok()?)),
        "undo" => Some(Move::Undo(StepId::parse(alloc, text.as_bytes()).ok()?)),
        _ => Some(Move::Roll(StepId::parse(alloc, text.as_bytes()).ok()?)),
    }
}

fn moves_of(alloc: Global, rows: &[(&str, &str, u32)]) -> Option<Vec<Move>> {
    let mut moves = Vec::new(alloc);
    for (word, text, _) in rows {
        moves.push(move_of(alloc, *word, *text)?).ok()?;
    }
    Some(moves)
}

fn number_of(answer: &Answer) -> u32 {
    match answer {
        Answer::Step(Ok(_)) => 100,
        Answer::Undo(Ok(_)) => 101,
        Answer::Roll(Ok(removed)) => if removed.len() == 2 { 102 } else { 99 },
        Answer::Step(Err(refusal)) => refusal.number() as u32,
        Answer::Undo(Err(refusal)) => refusal.number() as u32,
        Answer::Roll(Err(refusal)) => refusal.number() as u32,
    }
}

fn are_as_said(answers: &[Answer], rows: &[(&str, &str, u32)]) -> bool {
    for (at, answer) in answers.iter().enumerate() {
        match rows.get(at) {
            Some((_, _, number)) if number_of(answer) == *number => (),
            _ => return false,
        }
    }
    answers.len() == rows.len()
}

/// Whether the moves are answered so.
fn answers(live: &mut Live, moves: &[Move], rows: &[(&str, &str, u32)]) -> bool {
    match live.run(moves) {
        Ok(answers) => {
            let right = are_as_said(answers.as_slice(), rows);
            mem::forget(answers);
            right
        }
        Err(_) => false,
    }
}

#[test]
fn moves_are_answered_in_turn(rt: HostRuntime) {
    let moves = moves_of(rt.alloc(), MOVES.as_slice()).expect(&rt, "names of tasks and steps");
    let mut live = opened(rt.alloc()).expect(&rt, "an accepted program");
    assert!(rt; answers(&mut live, moves.as_slice(), MOVES.as_slice()));
    mem::forget(moves);
    mem::forget(live);
}
