//! What a step did, as text. Each piece may stay in part where memory runs out.

ghost use Rattle.std.specs.Prelude.{◌≡◌, ◌++◌, OnOk, codes, decimal};
ghost use Rattle.std.specs.Fmt.{signed_decimal};
ghost use Rattle.tb_model.specs.Spelling.{name_text};
ghost use Rattle.tb_view.specs.Step.{kind_text, place_text, item_text, items_text, args_text, deferred_text, answer_text, action_text};

use std::alloc::AllocError;
use tb_draft::Draft;
use tb_model::{Action, Item, Kind, Place, Spawn};

/// Appends what was done; `body` is the name of the body that a spawn names.
pub(crate) fn append_action(text: &mut Draft, body: &str, action: &Action) -> Result<(), AllocError>
    ensures { OnOk result (text.new ≡ text.old ++ action_text body.now action.now) }
{
    match action {
        Action::Start => text.push_str("start"),
        Action::Let { reg, value } => append_let(text, *reg, *value),
        Action::Load { reg, cell, value } => append_load(text, *reg, *cell, *value),
        Action::Store { cell, value } => append_store(text, *cell, *value),
        Action::Print { value } => append_print(text, *value),
        Action::Spawn(spawned) => append_spawn(text, body, spawned.get()),
        Action::Wait { items } => append_wait(text, items.as_slice()),
        Action::Open => text.push_str("open"),
        Action::Close => text.push_str("close"),
        Action::Test { yes } => text.push_str(answer(*yes)),
        Action::End => text.push_str("end"),
        Action::Fault => text.push_str("fault"),
    }
}

fn append_let(text: &mut Draft, reg: u8, value: i64) -> Result<(), AllocError>
    ensures { OnOk result (text.new ≡ text.old ++ (codes "let r" ++ decimal reg ++ codes " " ++ signed_decimal value)) }
{
    text.push_str("let r")?;
    text.push_number(u32::from(reg))?;
    text.push(' ')?;
    text.push_signed(value)
}

fn append_load(text: &mut Draft, reg: u8, cell: u32, value: i64) -> Result<(), AllocError>
    ensures { OnOk result (text.new ≡ text.old ++ (codes "load r" ++ decimal reg ++ codes " " ++ decimal cell ++ codes " " ++ signed_decimal value)) }
{
    text.push_str("load r")?;
    text.push_number(u32::from(reg))?;
    text.push(' ')?;
    text.push_number(cell)?;
    text.push(' ')?;
    text.push_signed(value)
}

fn append_store(text: &mut Draft, cell: u32, value: i64) -> Result<(), AllocError>
    ensures { OnOk result (text.new ≡ text.old ++ (codes "store " ++ decimal cell ++ codes " " ++ signed_decimal value)) }
{
    text.push_str("store ")?;
    text.push_number(cell)?;
    text.push(' ')?;
    text.push_signed(value)
}

fn append_print(text: &mut Draft, value: i64) -> Result<(), AllocError>
    ensures { OnOk result (text.new ≡ text.old ++ (codes "print " ++ signed_decimal value)) }
{
    text.push_str("print ")?;
    text.push_signed(value)
}

fn append_wait(text: &mut Draft, items: &[Item]) -> Result<(), AllocError>
    ensures { OnOk result (text.new ≡ text.old ++ (codes "wait" ++ items_text items.now)) }
{
    text.push_str("wait")?;
    append_items(text, items)
}

fn append_spawn(text: &mut Draft, body: &str, spawn: &Spawn) -> Result<(), AllocError>
    ensures { OnOk result (text.new ≡ text.old ++ (codes "spawn " ++ name_text spawn.now.child ++ codes " " ++ body.now ++ args_text spawn.now.args ++ items_text spawn.now.items ++ deferred_text spawn.now.deferred)) }
{
    text.push_str("spawn ")?;
    text.push_name(&spawn.child)?;
    text.push(' ')?;
    text.push_str(body)?;
    append_args(text, spawn.args.as_slice())?;
    append_items(text, spawn.items.as_slice())?;
    text.push_str(last_word(spawn.deferred))
}

/// Appends each number after a blank.
pub(crate) fn append_args(text: &mut Draft, args: &[i64]) -> Result<(), AllocError>
    ensures { OnOk result (text.new ≡ text.old ++ args_text args.now) }
{
    'each: for arg in args {
        text.push(' ')?;
        text.push_signed(*arg)?;
    }
    Ok(())
}

fn append_items(text: &mut Draft, items: &[Item]) -> Result<(), AllocError>
    ensures { OnOk result (text.new ≡ text.old ++ items_text items.now) }
{
    'each: for item in items {
        append_item(text, item)?;
    }
    Ok(())
}

fn append_item(text: &mut Draft, item: &Item) -> Result<(), AllocError>
    ensures { OnOk result (text.new ≡ text.old ++ item_text item.now) }
{
    text.push_str(" depend ")?;
    text.push_str(kind(item.kind))?;
    text.push(' ')?;
    append_place(text, item.place)
}

/// Appends a cell by its index, or that it is all memory.
pub(crate) fn append_place(text: &mut Draft, place: Place) -> Result<(), AllocError>
    ensures { OnOk result (text.new ≡ text.old ++ place_text place) }
{
    match place {
        Place::Cell(cell) => text.push_number(cell),
        Place::All => text.push_str("all"),
    }
}

/// The name of a dependence type.
pub(crate) fn kind(kind: Kind) -> &'static str
    ensures { result.now ≡ kind_text kind }
{
    match kind {
        Kind::In => "in",
        Kind::Out => "out",
        Kind::Inout => "inout",
        Kind::Mutexinoutset => "mutexinoutset",
        Kind::Inoutset => "inoutset",
    }
}

pub(crate) fn last_word(deferred: bool) -> &'static str
    ensures { result.now ≡ deferred_text deferred }
{
    if deferred { "" } else { " undeferred" }
}

fn answer(yes: bool) -> &'static str
    ensures { result.now ≡ answer_text yes }
{
    if yes { "test yes" } else { "test no" }
}
