//! Takes a step back with all that need it, and writes them.

ghost use Rattle.std.specs.Prelude.{◌≡◌, ◌++◌, IfOk, OnOk};
ghost use Rattle.tb_replies.specs.Refusals.{roll_refusal};
ghost use Rattle.tb_replies.specs.Replies.{RollReply, RolledReply};
ghost use Rattle.tb_replies.specs.Rolled.{removals_text, step_named};
ghost use Rattle.tb_view.specs.Lines.{removal_line};
ghost use Rattle.tb_live.specs.Session.{history};

use crate::refusing::refused;
use std::alloc::{AllocError, Global};
use tb_commands::Target;
use tb_draft::Draft;
use tb_live::{Live, Removed, RollRefusal};
use tb_model::StepId;
use tb_read::Program;
use tb_view::append_line;

fn append_removed(text: &mut Draft, program: &Program, removed: &Removed) -> Result<(), AllocError>
    ensures { OnOk result (text.new
        ≡ text.old ++ removal_line program.now removed.now) }
{
    let id = &removed.id;
    append_line(text, program, &id.task, id.k, &removed.action)
}

/// How many steps went, and the line of each.
fn removals_text(
    alloc: Global,
    program: &Program,
    removals: &[Removed],
) -> Result<Draft, AllocError>
    ensures { IfOk result (λ text. text ≡ removals_text program.now removals.now) }
{
    let count = removals.len();
    let mut text = Draft::of(alloc, format!(in alloc; "rolled {count}\n")?);
    for removed in removals {
        append_removed(&mut text, program, removed)?;
    }
    Ok(text)
}

fn roll_step(alloc: Global, live: &mut Live, id: &StepId) -> Result<Draft, AllocError>
    ensures { IfOk result (λ text. RolledReply (roll_refusal live.old.session id.now)
        live.old.session id.now text live.new.session) }
{
    match live.roll(0, id) {
        Ok(removals) => removals_text(alloc, live.program(), &removals),
        Err(RollRefusal::NoSuchStep) => refused(alloc, 1, "NoSuchStep"),
        Err(RollRefusal::Full) => refused(alloc, 2, "Full"),
        Err(RollRefusal::Memory) => Err(AllocError),
    }
}

fn roll_found(alloc: Global, live: &mut Live, found: Option<StepId>) -> Result<Draft, AllocError>
    ensures { IfOk result (λ text. RollReply live.old.session found text live.new.session) }
{
    match found {
        Some(id) => roll_step(alloc, live, &id),
        None => refused(alloc, 1, "NoSuchStep"),
    }
}

/// Takes the step back that the target names, with all that need it, and writes them.
pub fn roll_reply(alloc: Global, live: &mut Live, target: &Target) -> Result<Draft, AllocError>
    ensures { IfOk result (λ text. RollReply live.old.session
        (step_named (history live.old.session) target.now) text live.new.session) }
{
    match target {
        Target::Step { id } => roll_step(alloc, live, id),
        Target::LastStore { cell } => {
            let found = live.last_store(*cell)?;
            roll_found(alloc, live, found)
        }
        Target::LastPrint => {
            let found = live.last_print()?;
            roll_found(alloc, live, found)
        }
    }
}
