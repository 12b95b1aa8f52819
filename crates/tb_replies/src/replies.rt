//! The reply to a line of a session.

ghost use Rattle.std.specs.Prelude.{◌≡◌, ◌<◌, ◌+◌, ◌++◌, ◌-◌, ◌^◌, IfOk, IfErr, OnOk, ⊤, codes};
ghost use Rattle.tb_view.specs.Lines.{line};
ghost use Rattle.tb_replies.specs.Texts.{fault_word, newest_line};
ghost use Rattle.tb_replies.specs.Refusals.{step_refusal, undo_refusal};
ghost use Rattle.tb_replies.specs.Replies.{Answers, GoReply, Reply, StepReply, UndoReply};
ghost use Rattle.tb_replies.specs.Told.{Fails, FailsAt, TellsSteps, failures_at};
ghost use Rattle.tb_draft.specs.Written.{Told};
ghost use Rattle.tb_team.specs.Gone.{HasSeats};
ghost use Rattle.tb_live.specs.Runs.{resumed};
ghost use Rattle.tb_model.specs.Spelling.{step_id_text};

use crate::boxed_run::BoxedRun;
use crate::breaking::{body_reply, break_reply, clear_reply};
use crate::going::go_reply;
use crate::history::history_reply;
use crate::newest::append_newest;
use crate::refusing::{refused, refused_for, refused_with};
use crate::rolling::roll_reply;
use crate::running::run_reply;
use crate::showing::view_reply;
use crate::teaming::team_reply;
use crate::unanswered::Unanswered;
use std::alloc::{AllocError, Global};
use std::sync::Wait;
use std::thread::Threads;
use tb_commands::{Asked, Command, CommandFault, Workers, read_line};
use tb_draft::Draft;
use tb_lines::Sink;
use tb_live::{Live, StepRefusal, UndoRefusal};
use tb_model::{StepId, TaskName};
use tb_view::View;

fn fault_word(fault: CommandFault) -> &'static str
    ensures { result.now ≡ fault_word fault }
{
    match fault {
        CommandFault::Line => "line",
        CommandFault::Word => "word",
        CommandFault::Count => "count",
        CommandFault::Name => "name",
        CommandFault::Number => "number",
    }
}

fn fault_reply(alloc: Global, fault: CommandFault) -> Result<Draft, AllocError>
    ensures { IfOk result (λ text. text ≡ line (codes "error " ++ fault_word fault)) }
{
    let word = fault_word(fault);
    let text = format!(in alloc; "error {word}\n")?;
    Ok(Draft::of(alloc, text))
}

fn undone(alloc: Global, id: &StepId) -> Result<Draft, AllocError>
    ensures { IfOk result (λ text. text
        ≡ line (codes "undone " ++ step_id_text id.now)) }
{
    let mut text = Draft::new(alloc);
    text.push_str("undone ")?;
    text.push_step(&id.task, id.k)?;
    text.push('\n')?;
    Ok(text)
}

/// The line of the newest event that is there, of which this is the step.
fn newest_line(alloc: Global, live: &Live, id: &StepId) -> Result<Draft, AllocError>
    ensures { IfOk result (λ text. text ≡ newest_line live.now.session id.now) }
{
    let mut text = Draft::new(alloc);
    append_newest(&mut text, live, id)?;
    Ok(text)
}

fn step_reply(alloc: Global, live: &mut Live, task: &TaskName) -> Result<Draft, AllocError>
    ensures { IfOk result (λ text. StepReply (step_refusal (resumed live.old.session) task.now)
        (resumed live.old.session) task.now text live.new.session) }
{
    live.resume();
    match live.step(task) {
        Ok(id) => newest_line(alloc, live, &id),
        Err(StepRefusal::NoSuchTask) => refused(alloc, 1, "NoSuchTask"),
        Err(StepRefusal::Ended) => refused(alloc, 2, "Ended"),
        Err(StepRefusal::Waiting { pred }) => refused_for(alloc, 3, "Waiting", &pred),
        Err(StepRefusal::Excluded { by }) => refused_for(alloc, 4, "Excluded", &by),
        Err(StepRefusal::Children { first }) => refused_for(alloc, 5, "Children", &first),
        Err(StepRefusal::Group { first }) => refused_for(alloc, 6, "Group", &first),
        Err(StepRefusal::Undeferred { child }) => refused_for(alloc, 13, "Undeferred", &child),
        Err(StepRefusal::Full) => refused(alloc, 7, "Full"),
        Err(StepRefusal::Memory) => Err(AllocError),
        Err(StepRefusal::Stale { .. }) => unreachable!(),
    }
}

fn undo_reply(alloc: Global, live: &mut Live, id: &StepId) -> Result<Draft, AllocError>
    ensures { IfOk result (λ text. UndoReply (undo_refusal live.old.session id.now)
        live.old.session id.now text live.new.session) }
{
    match live.undo(0, id) {
        Ok(_) => undone(alloc, id),
        Err(UndoRefusal::NoSuchStep) => refused(alloc, 1, "NoSuchStep"),
        Err(UndoRefusal::Needed { by }) => refused_with(alloc, 2, "Needed", &by),
        Err(UndoRefusal::Full) => refused(alloc, 3, "Full"),
        Err(UndoRefusal::Memory) => Err(AllocError),
    }
}

/// Does what a command asks for, and writes it. What is handed out is the end of the reply.
fn reply<K: Sink>(
    alloc: Global,
    sink: &mut K,
    live: &mut Live,
    command: Command,
) -> Result<Draft, Unanswered>
    requires failures { K.failures sink.old < 2 ^ 64 - 1 }
    ensures told { IfOk result (λ text. Told (K.taken sink.old) (K.taken sink.new) text
        (λ out. Reply live.old.session command out live.new.session)) }
    ensures err { IfErr result (Fails (TellsSteps command) ⊥ (Reply live.old.session command)
        (K.taken sink.old) (K.taken sink.new)) }
    ensures ok { OnOk result (K.failures sink.new ≡ K.failures sink.old) }
    ensures failed { IfErr result (λ why. K.failures sink.new ≡ K.failures sink.old + failures_at why) }
{
    match command {
        Command::Step { task } => Ok(step_reply(alloc, live, &task)?),
        Command::Undo { id } => Ok(undo_reply(alloc, live, &id)?),
        Command::Roll { target } => Ok(roll_reply(alloc, live, &target)?),
        Command::Run { most } => Ok(run_reply(alloc, sink, live, most)?),
        Command::Break { at } => Ok(break_reply(alloc, live, at)?),
        Command::BreakBody { name } => Ok(body_reply(alloc, live, name.as_slice())?),
        Command::Clear { number } => Ok(clear_reply(alloc, live, number)?),
        Command::Show { view: View::Hist } => Ok(history_reply(alloc, sink, live)?),
        Command::Show { view } => Ok(view_reply(alloc, live, &view)?),
    }
}

/// Does what a command asks for, and writes it.
fn command_told<K: Sink>(
    alloc: Global,
    sink: &mut K,
    mut live: BoxedRun,
    command: Command,
) -> Result<(BoxedRun, Draft), Unanswered>
    requires failures { K.failures sink.old < 2 ^ 64 - 1 }
    ensures told { IfOk result (λ r. Told (K.taken sink.old) (K.taken sink.new) r.1
        (λ out. Reply live.session command out r.0.session)) }
    ensures err { IfErr result (Fails (TellsSteps command) ⊥ (Reply live.session command)
        (K.taken sink.old) (K.taken sink.new)) }
    ensures ok { OnOk result (K.failures sink.new ≡ K.failures sink.old) }
    ensures failed { IfErr result (λ why. K.failures sink.new ≡ K.failures sink.old + failures_at why) }
{
    match reply(alloc, sink, &mut live.live, command) {
        Ok(text) => Ok((live, text)),
        Err(why) => {
            live.end();
            Err(why)
        }
    }
}

/// Replies why a line is no command.
fn fault_told(
    alloc: Global,
    live: BoxedRun,
    fault: CommandFault,
) -> Result<(BoxedRun, Draft), Unanswered>
    ensures told { IfOk result (λ r. (r.1 ≡ line (codes "error " ++ fault_word fault))
        × (r.0.session ≡ live.session)) }
    ensures memory { IfErr result (λ why. why ≡ Unanswered.Memory) }
{
    match fault_reply(alloc, fault) {
        Ok(text) => Ok((live, text)),
        Err(_) => {
            live.end();
            Err(Unanswered::Memory)
        }
    }
}

/// Lets one worker go on for up to so many steps, and writes them.
fn alone_told<K: Sink>(
    alloc: Global,
    sink: &mut K,
    mut live: BoxedRun,
    most: u32,
) -> Result<(BoxedRun, Draft), Unanswered>
    requires seats { HasSeats live.session }
    requires failures { K.failures sink.old < 2 ^ 64 - 1 }
    ensures told { IfOk result (λ r. Told (K.taken sink.old) (K.taken sink.new) r.1
        (λ out. GoReply 1 most live.session out r.0.session)) }
    ensures err { IfErr result (Fails ⊤ ⊥ (GoReply 1 most live.session)
        (K.taken sink.old) (K.taken sink.new)) }
    ensures ok { OnOk result (K.failures sink.new ≡ K.failures sink.old) }
    ensures failed { IfErr result (λ why. K.failures sink.new ≡ K.failures sink.old + failures_at why) }
{
    match go_reply(alloc, sink, &mut live.live, most) {
        Ok(text) => Ok((live, text)),
        Err(why) => {
            live.end();
            Err(Unanswered::from(why))
        }
    }
}

/// Lets workers go on for up to so many steps, and writes them.
fn go_told<R: Threads + Wait + Sync, K: Sink>(
    rt: &R,
    alloc: Global,
    sink: &mut K,
    live: BoxedRun,
    workers: Workers,
    most: u32,
) -> Result<(BoxedRun, Draft), Unanswered>
    requires seats { HasSeats live.session }
    requires failures { K.failures sink.old < 2 ^ 64 - 1 }
    ensures told { IfOk result (λ r. Told (K.taken sink.old) (K.taken sink.new) r.1
        (λ out. GoReply workers most live.session out r.0.session)) }
    ensures err { IfErr result (Fails (workers ≡ 1) (1 < workers) (GoReply workers most live.session)
        (K.taken sink.old) (K.taken sink.new)) }
    ensures ok { OnOk result (K.failures sink.new ≡ K.failures sink.old) }
    ensures failed { IfErr result (λ why. K.failures sink.new ≡ K.failures sink.old + failures_at why) }
{
    if workers.count() == 1 {
        return alone_told(alloc, sink, live, most);
    }
    let (live, text) = team_reply(rt, alloc, live, workers.count(), most)?;
    Ok((live, text))
}

/// Does what a line asks for, and writes it, where `go` may name so many workers. A long reply is
/// written as it comes; what is handed out is the end of the reply, and still to be written. An
/// `Err` may come when it is done and can't be written.
pub fn answer<R: Threads + Wait + Sync, K: Sink>(
    rt: &R,
    alloc: Global,
    limit: Workers,
    sink: &mut K,
    live: BoxedRun,
    line: &[u8],
) -> Result<(BoxedRun, Draft), Unanswered>
    requires seats { HasSeats live.session }
    requires failures { K.failures sink.old < 2 ^ 64 - 1 }
    ensures told { IfOk result (λ r. Told (K.taken sink.old) (K.taken sink.new) r.1
        (λ out. Answers limit live.session line.now out r.0.session)) }
    ensures err { IfErr result (FailsAt limit live.session line.now (K.taken sink.old) (K.taken sink.new)) }
    ensures ok { OnOk result (K.failures sink.new ≡ K.failures sink.old) }
    ensures failed { IfErr result (λ why. K.failures sink.new ≡ K.failures sink.old + failures_at why) }
{
    let asked = match read_line(alloc, limit, line) {
        Ok(asked) => asked,
        Err(_) => {
            live.end();
            return Err(Unanswered::Memory);
        }
    };
    match asked {
        Asked::Nothing => Ok((live, Draft::new(alloc))),
        Asked::Command(command) => command_told(alloc, sink, live, command),
        Asked::Go { workers, most } => go_told(rt, alloc, sink, live, workers, most),
        Asked::Fault(fault) => fault_told(alloc, live, fault),
    }
}
