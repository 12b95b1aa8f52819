//! What an event says that its task did.

ghost use Rattle.std.specs.Prelude.{◌≡◌, IfErr, IfOk, IsTrue, Err, Ok};
ghost use Rattle.tb_runs.specs.Actions.{action_by, action_in, let_in, load_in, print_in, spawn_in, store_in, test_in, verb_in, wait_in};
ghost use Rattle.tb_runs.specs.Memory.{action_takes, has_items};
ghost use Rattle.tb_runs.specs.declared.fault.Fault.{Fault as TheFault};
ghost use Rattle.tb_runs.specs.declared.fault.Unread.TheVariants.{Faulty, Memory};

use crate::fault::{Fault, Unread};
use crate::items::{take_args, take_items};
use crate::plain::plain_verb;
use crate::taking::{
    take_body, take_cell, take_if, take_number, take_register, take_task, take_word,
};
use crate::verb::{Verb, verb_of};
use crate::words::Words;
use std::alloc::Global;
use tb_model::{Action, Spawn, Spawned, WaitItems};
use tb_read::same_word;

/// The word that says what was done.
#[inline(always)]
fn take_verb(words: &mut Words<'_>) -> Result<Verb, Fault>
    ensures ok { IfOk result (λ verb. verb_in words.old ≡ Ok (verb, words.new)) }
    ensures err { IfErr result (λ fault. verb_in words.old ≡ Err fault) }
{
    match plain_verb(words.bytes()) {
        Some((verb, rest)) => {
            *words = Words::of(rest);
            Ok(verb)
        }
        None => any_verb(words),
    }
}

/// The word that says what was done, however it is spelled.
// out of line: a plain one doesn't pay for its stack frame
#[inline(never)]
fn any_verb(words: &mut Words<'_>) -> Result<Verb, Fault>
    ensures ok { IfOk result (λ verb. verb_in words.old ≡ Ok (verb, words.new)) }
    ensures err { IfErr result (λ fault. verb_in words.old ≡ Err fault) }
{
    match verb_of(take_word(words)?) {
        Some(verb) => Ok(verb),
        None => Err(Fault::UnknownWord),
    }
}

fn take_let(words: &mut Words<'_>) -> Result<Action, Fault>
    ensures ok { IfOk result (λ action. let_in words.old ≡ Ok (action, words.new)) }
    ensures err { IfErr result (λ fault. let_in words.old ≡ Err fault) }
{
    let reg = take_register(words)?;
    let value = take_number(words)?;
    Ok(Action::Let { reg, value })
}

fn take_load(words: &mut Words<'_>, cells: u32) -> Result<Action, Fault>
    ensures ok { IfOk result (λ action. load_in cells words.old ≡ Ok (action, words.new)) }
    ensures err { IfErr result (λ fault. load_in cells words.old ≡ Err fault) }
{
    let reg = take_register(words)?;
    let cell = take_cell(words, cells)?;
    let value = take_number(words)?;
    Ok(Action::Load { reg, cell, value })
}

fn take_store(words: &mut Words<'_>, cells: u32) -> Result<Action, Fault>
    ensures ok { IfOk result (λ action. store_in cells words.old ≡ Ok (action, words.new)) }
    ensures err { IfErr result (λ fault. store_in cells words.old ≡ Err fault) }
{
    let cell = take_cell(words, cells)?;
    let value = take_number(words)?;
    Ok(Action::Store { cell, value })
}

fn take_print(words: &mut Words<'_>) -> Result<Action, Fault>
    ensures ok { IfOk result (λ action. print_in words.old ≡ Ok (action, words.new)) }
    ensures err { IfErr result (λ fault. print_in words.old ≡ Err fault) }
{
    let value = take_number(words)?;
    Ok(Action::Print { value })
}

fn take_test(words: &mut Words<'_>) -> Result<Action, Fault>
    ensures ok { IfOk result (λ action. test_in words.old ≡ Ok (action, words.new)) }
    ensures err { IfErr result (λ fault. test_in words.old ≡ Err fault) }
{
    let word = take_word(words)?;
    if same_word(word, b"yes") {
        Ok(Action::Test { yes: true })
    } else if same_word(word, b"no") {
        Ok(Action::Test { yes: false })
    } else {
        Err(Fault::UnknownWord)
    }
}

// out of line: other actions don't pay for its stack frame
#[inline(never)]
fn take_wait(alloc: Global, words: &mut Words<'_>, cells: u32) -> Result<Action, Unread>
    ensures ok { IfOk result (λ action. wait_in cells words.old ≡ Ok (action, words.new)) }
    ensures err { (fault : TheFault) → result ≡ Err (Faulty fault) → wait_in cells words.old ≡ Err fault }
{
    let items = take_items(alloc, words, true, cells)?;
    let items = WaitItems::new(alloc, items)?;
    Ok(Action::Wait { items })
}

/// The child, with a body that isn't stored, since a run has none.
// out of line: other actions don't pay for its stack frame
#[inline(never)]
fn take_spawn(alloc: Global, words: &mut Words<'_>, cells: u32) -> Result<Action, Unread>
    ensures ok { IfOk result (λ action. spawn_in cells words.old ≡ Ok (action, words.new)) }
    ensures err { (fault : TheFault) → result ≡ Err (Faulty fault) → spawn_in cells words.old ≡ Err fault }
{
    let child = take_task(alloc, words)?;
    let _ = take_body(words)?;
    let args = take_args(alloc, words)?;
    let items = take_items(alloc, words, false, cells)?;
    let undeferred = take_if(words, b"undeferred");
    let spawn = Spawn {
        child,
        body: 0,
        args,
        items,
        deferred: !undeferred,
    };
    Ok(Action::Spawn(Spawned::new(alloc, spawn)?))
}

/// What the words after the verb say.
fn behind_verb(
    alloc: Global,
    words: &mut Words<'_>,
    cells: u32,
    verb: Verb,
) -> Result<Action, Unread>
    ensures ok { IfOk result (λ action. action_by cells verb words.old ≡ Ok (action, words.new)) }
    ensures err { (fault : TheFault) → result ≡ Err (Faulty fault) → action_by cells verb words.old ≡ Err fault }
    ensures memory { result ≡ Err Memory → IsTrue (has_items verb) }
{
    match verb {
        Verb::Start => Ok(Action::Start),
        Verb::Let => Ok(take_let(words)?),
        Verb::Load => Ok(take_load(words, cells)?),
        Verb::Store => Ok(take_store(words, cells)?),
        Verb::Print => Ok(take_print(words)?),
        Verb::Spawn => take_spawn(alloc, words, cells),
        Verb::Wait => take_wait(alloc, words, cells),
        Verb::Open => Ok(Action::Open),
        Verb::Close => Ok(Action::Close),
        Verb::Test => Ok(take_test(words)?),
        Verb::End => Ok(Action::End),
        Verb::Fault => Ok(Action::Fault),
    }
}

/// What a task did, where there are so many cells.
pub fn take_action(alloc: Global, words: &mut Words<'_>, cells: u32) -> Result<Action, Unread>
    ensures ok { IfOk result (λ action. action_in cells words.old ≡ Ok (action, words.new)) }
    ensures err { (fault : TheFault) → result ≡ Err (Faulty fault) → action_in cells words.old ≡ Err fault }
    ensures memory { result ≡ Err Memory → IsTrue (action_takes words.old) }
{
    let verb = take_verb(words)?;
    behind_verb(alloc, words, cells, verb)
}
