//! The line of a step, put together from its end.

ghost use Rattle.std.specs.Prelude.{◌≡◌, ◌++◌, IfSome, codes, decimal};
ghost use Rattle.std.specs.Fmt.{signed_decimal};
ghost use Rattle.tb_model.specs.Spelling.{name_text};
ghost use Rattle.tb_view.specs.Lines.{event_line};
ghost use Rattle.tb_view.specs.Step.{spawned_name, action_text, item_text, items_text, args_text, deferred_text};

use crate::action_text::{kind, last_word};
use crate::step_line::body_name;
use tb_draft::ShortText;
use tb_model::{Action, Item, Place, Spawn, TaskName};
use tb_read::Program;

/// Puts the line of the kth step of a task in front, if there is capacity. Some of it may stay
/// where there isn't, as with each piece.
#[inline(always)]
pub(crate) fn put_line(
    text: &mut ShortText,
    program: &Program,
    task: &TaskName,
    k: u32,
    action: &Action,
) -> Option<()>
    ensures { IfSome result (λ _. text.new
        ≡ event_line program.now (record { task = task.now; k = k })
        (record { task = task.now; action = action.now }) ++ text.old) }
{
    text.prepend("\n")?;
    put_action(text, program, action)?;
    text.prepend_number(k)?;
    text.prepend("#")?;
    text.prepend_name(task)
}

/// Puts a blank and what was done in front.
#[inline(always)]
fn put_action(text: &mut ShortText, program: &Program, action: &Action) -> Option<()>
    ensures { IfSome result (λ _. text.new
        ≡ codes " " ++ action_text (spawned_name program.now action.now) action.now ++ text.old) }
{
    match action {
        Action::Start => text.prepend(" start"),
        Action::Let { reg, value } => put_let(text, *reg, *value),
        Action::Load { reg, cell, value } => put_load(text, *reg, *cell, *value),
        Action::Store { cell, value } => put_store(text, *cell, *value),
        Action::Print { value } => put_print(text, *value),
        Action::Spawn(spawned) => put_spawn(
            text,
            body_name(program, spawned.get().body),
            spawned.get(),
        ),
        Action::Wait { items } => put_wait(text, items.as_slice()),
        Action::Open => text.prepend(" open"),
        Action::Close => text.prepend(" close"),
        Action::Test { yes: true } => text.prepend(" test yes"),
        Action::Test { yes: false } => text.prepend(" test no"),
        Action::End => text.prepend(" end"),
        Action::Fault => text.prepend(" fault"),
    }
}

#[inline(always)]
fn put_let(text: &mut ShortText, reg: u8, value: i64) -> Option<()>
    ensures { IfSome result (λ _. text.new ≡ codes " let r" ++ decimal reg ++ codes " " ++ signed_decimal value ++ text.old) }
{
    text.prepend_signed(value)?;
    text.prepend(" ")?;
    text.prepend_number(u32::from(reg))?;
    text.prepend(" let r")
}

#[inline(always)]
fn put_load(text: &mut ShortText, reg: u8, cell: u32, value: i64) -> Option<()>
    ensures { IfSome result (λ _. text.new ≡ codes " load r" ++ decimal reg ++ codes " " ++ decimal cell ++ codes " " ++ signed_decimal value ++ text.old) }
{
    text.prepend_signed(value)?;
    text.prepend(" ")?;
    text.prepend_number(cell)?;
    text.prepend(" ")?;
    text.prepend_number(u32::from(reg))?;
    text.prepend(" load r")
}

#[inline(always)]
fn put_store(text: &mut ShortText, cell: u32, value: i64) -> Option<()>
    ensures { IfSome result (λ _. text.new ≡ codes " store " ++ decimal cell ++ codes " " ++ signed_decimal value ++ text.old) }
{
    text.prepend_signed(value)?;
    text.prepend(" ")?;
    text.prepend_number(cell)?;
    text.prepend(" store ")
}

#[inline(always)]
fn put_print(text: &mut ShortText, value: i64) -> Option<()>
    ensures { IfSome result (λ _. text.new ≡ codes " print " ++ signed_decimal value ++ text.old) }
{
    text.prepend_signed(value)?;
    text.prepend(" print ")
}

#[inline(never)]
fn put_wait(text: &mut ShortText, items: &[Item]) -> Option<()>
    ensures { IfSome result (λ _. text.new ≡ codes " wait" ++ items_text items.now ++ text.old) }
{
    put_items(text, items)?;
    text.prepend(" wait")
}

#[inline(never)]
fn put_spawn(text: &mut ShortText, body: &str, spawn: &Spawn) -> Option<()>
    ensures { IfSome result (λ _. text.new ≡ codes " spawn " ++ name_text spawn.now.child ++ codes " " ++ body.now ++ args_text spawn.now.args ++ items_text spawn.now.items ++ deferred_text spawn.now.deferred ++ text.old) }
{
    text.prepend(last_word(spawn.deferred))?;
    put_items(text, spawn.items.as_slice())?;
    put_args(text, spawn.args.as_slice())?;
    text.prepend(body)?;
    text.prepend(" ")?;
    text.prepend_name(&spawn.child)?;
    text.prepend(" spawn ")
}

fn put_args(text: &mut ShortText, args: &[i64]) -> Option<()>
    ensures { IfSome result (λ _. text.new ≡ args_text args.now ++ text.old) }
{
    let mut rest = args;
    'each: while let [front @ .., arg] = rest {
        put_arg(text, arg)?;
        rest = front;
    }
    Some(())
}

/// Puts a number after a blank in front.
fn put_arg(text: &mut ShortText, arg: &i64) -> Option<()>
    ensures { IfSome result (λ _. text.new ≡ codes " " ++ signed_decimal arg.now ++ text.old) }
{
    text.prepend_signed(*arg)?;
    text.prepend(" ")
}

fn put_items(text: &mut ShortText, items: &[Item]) -> Option<()>
    ensures { IfSome result (λ _. text.new ≡ items_text items.now ++ text.old) }
{
    let mut rest = items;
    'each: while let [front @ .., item] = rest {
        put_item(text, item)?;
        rest = front;
    }
    Some(())
}

fn put_item(text: &mut ShortText, item: &Item) -> Option<()>
    ensures { IfSome result (λ _. text.new ≡ item_text item.now ++ text.old) }
{
    match item.place {
        Place::Cell(cell) => text.prepend_number(cell)?,
        Place::All => text.prepend("all")?,
    }
    text.prepend(" ")?;
    text.prepend(kind(item.kind))?;
    text.prepend(" depend ")
}
