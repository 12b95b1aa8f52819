//! Steps one after another, each of the least task that can step.

ghost use Rattle.std.specs.Prelude.{◌≡◌, ◌+◌, ◌++◌, ◌-◌, ◌<◌, ◌^◌, IfErr, IfOk, OnErr, OnOk, codes, decimal};
ghost use Rattle.tb_view.specs.Lines.{line};
ghost use Rattle.tb_replies.specs.Course.{behind, course, IsCourse};
ghost use Rattle.tb_team.specs.Stops.{stop_word};
ghost use Rattle.tb_replies.specs.Replies.{RunReply};
ghost use Rattle.tb_replies.specs.Told.{Begins, failed_at};
ghost use Rattle.tb_draft.specs.Written.{Told};
ghost use Rattle.tb_live.specs.Runs.{resumed};

use crate::newest::append_newest;
use crate::unwritten::Unwritten;
use std::alloc::{AllocError, Global};
use tb_draft::Draft;
use tb_lines::Sink;
use tb_live::{Live, StepRefusal};
use tb_team::Stop;

/// How many steps were executed, and why no more.
#[derive(Clone, Copy, Debug, PartialEq, Eq)]
pub struct Taken {
    pub count: u32,
    pub stop: Stop,
}

/// Executes the steps, each after a resume, and writes each as soon as it is taken.
fn take_steps<K: Sink>(
    sink: &mut K,
    text: &mut Draft,
    live: &mut Live,
    most: u32,
) -> Result<Taken, Unwritten>
    requires failures { K.failures sink.old < 2 ^ 64 - 1 }
    ensures told { IfOk result (λ taken.
        Told (K.taken sink.old) (K.taken sink.new) text.new
        (λ told. IsCourse (behind text.old 0 (course most live.old.session))
        told taken live.new.session)) }
    ensures err { OnErr result
        (Begins (RunReply (behind text.old 0 (course most live.old.session)))
        (K.taken sink.old) (K.taken sink.new)) }
    ensures ok { OnOk result (K.failures sink.new ≡ K.failures sink.old) }
    ensures failed { IfErr result (λ why. K.failures sink.new ≡ K.failures sink.old + failed_at why) }
{
    let mut count = 0;
    'steps: while count < most {
        live.resume();
        match live.step_least() {
            Ok(Some(id)) => append_newest(text, live, &id)?,
            Ok(None) => return Ok(Taken {
                count,
                stop: Stop::Done,
            }),
            Err(StepRefusal::Full) => return Ok(Taken {
                count,
                stop: Stop::Full,
            }),
            Err(StepRefusal::Memory) => return Err(Unwritten::Memory),
            Err(_) => unreachable!(),
        }
        text.pass_on(sink)?;
        count += 1;
    }
    Ok(Taken {
        count,
        stop: Stop::Limit,
    })
}

/// Appends the last line of a run.
pub fn append_end(text: &mut Draft, taken: Taken) -> Result<(), AllocError>
    ensures { OnOk result (text.new ≡ text.old
        ++ line (codes "ran " ++ decimal taken.count ++ codes " " ++ stop_word taken.stop)) }
{
    text.push_str("ran ")?;
    text.push_number(taken.count)?;
    text.push_str(" ")?;
    text.push_str(taken.stop.word())?;
    text.push('\n')
}

/// Lets the run go on, executes up to so many steps, and writes them. Breakpoints don't stop it.
/// What is handed out is the end of the reply, and still to be written.
pub fn run_reply<K: Sink>(
    alloc: Global,
    sink: &mut K,
    live: &mut Live,
    most: u32,
) -> Result<Draft, Unwritten>
    requires failures { K.failures sink.old < 2 ^ 64 - 1 }
    ensures told { IfOk result (λ text. Told (K.taken sink.old) (K.taken sink.new) text
        (λ out. RunReply (course most (resumed live.old.session)) out live.new.session)) }
    ensures err { OnErr result (Begins (RunReply (course most (resumed live.old.session)))
        (K.taken sink.old) (K.taken sink.new)) }
    ensures ok { OnOk result (K.failures sink.new ≡ K.failures sink.old) }
    ensures failed { IfErr result (λ why. K.failures sink.new ≡ K.failures sink.old + failed_at why) }
{
    live.resume();
    let mut text = Draft::new(alloc);
    let taken = take_steps(sink, &mut text, live, most)?;
    append_end(&mut text, taken)?;
    Ok(text)
}
