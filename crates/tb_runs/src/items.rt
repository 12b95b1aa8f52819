//! Depend clauses and arguments.

ghost use Rattle.std.specs.Prelude.{◌≡◌, IfErr, IfOk, Err, Ok};
ghost use Rattle.tb_runs.specs.Reading.{allows_all, args_in, ends_args, item_in, items_in, place_in};
ghost use Rattle.tb_runs.specs.declared.fault.Fault.{Fault as TheFault};
ghost use Rattle.tb_runs.specs.declared.fault.Unread.TheVariants.{Faulty};

use crate::fault::{Fault, Unread};
use crate::taking::{take_cell, take_if, take_number, take_type};
use crate::words::Words;
use std::alloc::Global;
use tb_model::{Args, Item, Items, Kind, Place};
use tb_read::same_word;

/// Whether all memory may be an item of this type.
fn allows_all(kind: Kind) -> bool
    ensures { result ≡ allows_all kind }
{
    matches!(kind, Kind::Out | Kind::Inout)
}

/// A cell, or all memory.
fn take_place(words: &mut Words<'_>, cells: u32, kind: Kind) -> Result<Place, Fault>
    ensures ok { IfOk result (λ place. place_in cells kind words.old ≡ Ok (place, words.new)) }
    ensures err { IfErr result (λ fault. place_in cells kind words.old ≡ Err fault) }
{
    if !take_if(words, b"all") {
        return Ok(Place::Cell(take_cell(words, cells)?));
    }
    if allows_all(kind) {
        Ok(Place::All)
    } else {
        Err(Fault::DependType)
    }
}

/// What comes after `depend`.
fn take_item(words: &mut Words<'_>, on_wait: bool, cells: u32) -> Result<Item, Fault>
    ensures ok { IfOk result (λ item. item_in on_wait cells words.old ≡ Ok (item, words.new)) }
    ensures err { IfErr result (λ fault. item_in on_wait cells words.old ≡ Err fault) }
{
    let kind = take_type(words, on_wait)?;
    let place = take_place(words, cells, kind)?;
    Ok(Item { kind, place })
}

/// The depend clauses that follow one another, at most 64.
pub fn take_items(
    alloc: Global,
    words: &mut Words<'_>,
    on_wait: bool,
    cells: u32,
) -> Result<Items, Unread>
    ensures ok { IfOk result (λ items. items_in on_wait cells 64 words.old ≡ Ok (items, words.new)) }
    ensures err { (fault : TheFault) → result ≡ Err (Faulty fault) → items_in on_wait cells 64 words.old ≡ Err fault }
{
    let mut items = Items::new(alloc);
    let mut room: usize = 64;
    'clauses: while take_if(words, b"depend") {
        let item = take_item(words, on_wait, cells)?;
        if room == 0 {
            return Err(Unread::Faulty(Fault::TooLarge));
        }
        room -= 1;
        items.push(item)?;
    }
    Ok(items)
}

/// Whether no further argument comes.
fn ends_args(words: &Words<'_>) -> bool
    ensures { result ≡ ends_args words.now }
{
    match words.peek() {
        Some(word) => same_word(word, b"depend") || same_word(word, b"undeferred"),
        None => true,
    }
}

/// The arguments, at most 16.
pub fn take_args(alloc: Global, words: &mut Words<'_>) -> Result<Args, Unread>
    ensures ok { IfOk result (λ args. args_in 16 words.old ≡ Ok (args, words.new)) }
    ensures err { (fault : TheFault) → result ≡ Err (Faulty fault) → args_in 16 words.old ≡ Err fault }
{
    let mut args = Args::new(alloc);
    let mut room: usize = 16;
    'args: while !ends_args(words) {
        let x = take_number(words)?;
        if room == 0 {
            return Err(Unread::Faulty(Fault::TooLarge));
        }
        room -= 1;
        args.push(x)?;
    }
    Ok(args)
}
