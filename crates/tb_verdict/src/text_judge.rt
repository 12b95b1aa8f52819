//! Judges a whole run text.

ghost use Rattle.std.specs.Prelude.{◌≡◌, ◌⊎◌, ◌∷◌, ◌++◌, ℕ, [], List, IfOk, None, OnErr, OnOk, length};
ghost use Rattle.tb_verdict.specs.Held.{IsBehind};
ghost use Rattle.tb_verdict.specs.Memory.{LineTakes};
ghost use Rattle.tb_verdict.specs.Texts.{Sofar, lines_behind, start};
ghost use Rattle.tb_verdict.specs.Whole.{Adds, IsJudged, IsVerdict, has_ended};
ghost use Rattle.tb_verdict.specs.declared.ending.Ending.{Ending as TheEnding};
ghost use Rattle.tb_verdict.specs.declared.text_judge.TextJudge.TheVariants.{Ended};

use crate::ending::Ending;
use crate::judge::Judge;
use crate::line_verdict::LineVerdict;
use crate::verdict::Verdict;
use std::alloc::{AllocError, Global};
use tb_model::Event;
use tb_runs::Fault;

/// Judges a run text line by line, up to the line at which its judgement ends.
#[derive(Drop)]
pub enum TextJudge {
    /// The lines so far, by their count, at none of which the judgement ended.
    Open { lines: u64, judge: Judge },
    /// The judgement ended at the line with this number.
    Ended { line: u64, ending: Ending },
}

impl TextJudge {
    /// A judge of a text of which no line was read.
    pub fn new(alloc: Global) -> TextJudge
        ensures { IsJudged result [] }
    {
        TextJudge::Open {
            lines: 0,
            judge: Judge::new(alloc),
        }
    }

    /// Judges the next line, and returns the event that it adds, if it adds one. After the
    /// judgement's end no line changes anything, and none wants memory. Where memory is wanted,
    /// nothing changes; line 2 ^ 64 wants memory.
    pub fn take_line(&mut self, alloc: Global, line: &[u8]) -> Result<Option<Event>, AllocError>
        requires { (lines : List (List ℕ)) × IsJudged self.old lines }
        ensures ok { OnOk result ((lines : List (List ℕ)) → IsJudged self.old lines →
            IsJudged self.new (lines ++ line.now ∷ [])) }
        ensures event { IfOk result (λ event. (lines : List (List ℕ)) → IsJudged self.old lines →
            Adds event lines (lines ++ line.now ∷ [])) }
        ensures err { OnErr result ((lines : List (List ℕ)) → IsJudged self.old lines →
            IsJudged self.new lines) }
        ensures memory { OnErr result ((lines : List (List ℕ)) (s : Sofar) → IsJudged self.old lines →
            lines_behind 1 start lines ≡ Ok s → (length lines ≡ u64.MAX) ⊎ LineTakes s line.now) }
        ensures ended { (n : ℕ) (ending : TheEnding) → self.old ≡ Ended n ending →
            (result ≡ Ok None) × (self.new ≡ Ended n ending) }
    {
        let TextJudge::Open { lines, judge } = self else {
            return Ok(None);
        };
        if *lines == u64::MAX {
            return Err(AllocError);
        }
        let verdict = judge.take_line(alloc, line)?;
        *lines += 1;
        match verdict {
            LineVerdict::Taken { event } => Ok(event),
            LineVerdict::Ends { ending } => {
                let line = *lines;
                self.end(line, ending);
                Ok(None)
            }
        }
    }

    /// The judgement ends at the line with this number.
    // out of line: the lines before it don't pay for its stack frame
    #[inline(never)]
    fn end(&mut self, line: u64, ending: Ending)
        ensures { self.new ≡ Ended line ending }
    {
        *self = TextJudge::Ended { line, ending };
    }

    /// Whether the judgement has ended.
    pub fn has_ended(&self) -> bool
        ensures { result ≡ has_ended self.now }
    {
        matches!(self, TextJudge::Ended { .. })
    }

    /// What the text comes to where it ends there.
    pub fn verdict(self) -> Verdict
        ensures { (lines : List (List ℕ)) → IsJudged self lines → IsVerdict result lines }
    {
        match self {
            TextJudge::Ended {
                line,
                ending: Ending::Faulty { fault },
            } => Verdict::Faulty { line, fault },
            TextJudge::Ended {
                line,
                ending: Ending::Refused { refusal },
            } => Verdict::Refused { line, refusal },
            TextJudge::Open { judge, .. } => closed(judge),
        }
    }
}

/// What a text comes to whose lines the judge has taken.
fn closed(judge: Judge) -> Verdict
    ensures { (lines : List (List ℕ)) (s : Sofar) → lines_behind 1 start lines ≡ Ok s → IsBehind judge s → IsVerdict result lines }
{
    match judge.events() {
        Some(events) => Verdict::Legal { events, judge },
        None => Verdict::Faulty {
            line: 1,
            fault: Fault::NoCells,
        },
    }
}
