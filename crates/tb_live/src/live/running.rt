//! A list of moves, one after another.

ghost use Rattle.std.specs.Prelude.{◌≡◌, ◌≤◌, IfOk, OnErr, length};
ghost use Rattle.tb_live.specs.Runs.{Answers, Makes, Runs, StepsAt, unclaimed};
ghost use Rattle.tb_live.specs.Session.{with_limit};

use super::Live;
use crate::answer::Answer;
use crate::commit_refusal::CommitRefusal;
use crate::moves::Move;
use crate::prepared::forget;
use std::alloc::AllocError;
use tb_model::TaskName;

impl Live {
    /// Makes the moves for seat 0, in order. All claims are withdrawn, and the run is resumed in
    /// front of each move. Capacity for the answers is taken first, and where it is refused nothing
    /// changes, what is prepared included; what is refused later is an answer.
    pub fn run(&mut self, moves: &[Move]) -> Result<Vec<Answer>, AllocError>
        ensures ok { IfOk result (λ answers. Runs moves.now (unclaimed self.old.session) answers.items self.new.session) }
        ensures err { OnErr result (self.new ≡ self.old) }
    {
        let mut answers = Vec::with_capacity(self.alloc, moves.len())?;
        self.withdraw_all();
        for one in moves {
            answers.push_reserved(self.answer(one));
        }
        Ok(answers)
    }

    /// Withdraws all claims.
    pub fn withdraw_all(&mut self)
        ensures { self.new.session ≡ unclaimed self.old.session }
    {
        self.control.claims.withdraw_all();
    }

    /// Sets how many entries the journal may have: at least as many as it has. What is prepared is
    /// forgotten.
    pub fn set_limit(&mut self, limit: u32)
        requires within { length self.old.session.journal ≤ limit }
        requires bound { limit ≤ 1000000 }
        ensures { self.new.session ≡ with_limit limit self.old.session }
    {
        forget(&mut self.prepared);
        self.core.set_limit(limit);
        self.limit = limit;
    }

    /// Makes a move, after a resume.
    fn answer(&mut self, one: &Move) -> Answer
        ensures { Answers self.old.session one.now self.new.session result }
    {
        self.resume();
        self.make(one)
    }

    fn make(&mut self, one: &Move) -> Answer
        ensures { Makes self.old.session one.now self.new.session result }
    {
        match one {
            Move::Step(task) => Answer::Step(self.step_for_move(task)),
            Move::Undo(id) => Answer::Undo(self.undo(0, id)),
            Move::Roll(id) => Answer::Roll(self.roll(0, id)),
        }
    }

    /// Executes the task's next step, and answers the slot of its entry.
    fn step_for_move(&mut self, task: &TaskName) -> Result<u32, CommitRefusal>
        ensures { StepsAt self.old.session task.now self.new.session result }
    {
        let place = self.journal.len() as u32;
        match self.step(task) {
            Ok(_) => Ok(place),
            Err(refusal) => Err(CommitRefusal::Step { refusal }),
        }
    }
}
