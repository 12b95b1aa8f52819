//! Takes the words of a line from the left, each at its index.

ghost use Rattle.std.specs.Prelude.{◌≡◌, ◌<◌, ◌∷◌, [], List, IfErr, IfOk, Err, IsTrue, Ok, drop, if◌then◌else◌};
ghost use Rattle.tb_read.specs.Word.{Word};
ghost use Rattle.tb_runs.specs.Memory.{id_takes};
ghost use Rattle.tb_runs.specs.Reading.{begins, body_in, cell_in, id_in, kind_in, number_in, register_in, task_in, type_in, word_in};
ghost use Rattle.tb_runs.specs.declared.fault.Fault.{Fault as TheFault};
ghost use Rattle.tb_runs.specs.declared.fault.Fault.TheVariants.{Arity};
ghost use Rattle.tb_runs.specs.declared.fault.Unread.TheVariants.{Faulty, Memory};

use crate::fault::{Fault, Unread};
use crate::name::{Id, read_id, read_task};
use crate::plain::{plain_digits, plain_id};
use crate::words::Words;
use std::alloc::Global;
use tb_model::{Kind, TaskName};
use tb_read::same_word;
use tb_read::word::{is_name, kind, number, register};

/// A word, whatever it is.
#[inline(always)]
pub fn take_word<'a>(words: &mut Words<'a>) -> Result<&'a [u8], Fault>
    ensures ok { IfOk result (λ word. word_in words.old ≡ Ok (word.now, words.new)) }
    ensures err { IfErr result (λ fault. word_in words.old ≡ Err fault) }
{
    match words.next() {
        Some(word) => Ok(word),
        None => Err(Fault::Arity),
    }
}

/// Checks that no word is left.
#[inline(always)]
pub fn take_end(words: &mut Words<'_>) -> Result<(), Fault>
    ensures ok { IfOk result (λ _. words.old ≡ []) }
    ensures err { IfErr result (λ fault. (fault ≡ Arity) × ((w : Word) × (ws : List Word) × (words.old ≡ w ∷ ws))) }
{
    match words.next() {
        Some(_) => Err(Fault::Arity),
        None => Ok(()),
    }
}

/// A number.
#[inline(always)]
pub fn take_number(words: &mut Words<'_>) -> Result<i64, Fault>
    ensures ok { IfOk result (λ x. number_in words.old ≡ Ok (x, words.new)) }
    ensures err { IfErr result (λ fault. number_in words.old ≡ Err fault) }
{
    match plain_digits(words.bytes()) {
        Some((x, rest)) => {
            *words = Words::of(rest);
            Ok(x as i64)
        }
        None => any_signed(words),
    }
}

/// A number, however it is spelled.
// out of line: a plain one doesn't pay for its stack frame
#[inline(never)]
fn any_signed(words: &mut Words<'_>) -> Result<i64, Fault>
    ensures ok { IfOk result (λ x. number_in words.old ≡ Ok (x, words.new)) }
    ensures err { IfErr result (λ fault. number_in words.old ≡ Err fault) }
{
    match number(take_word(words)?) {
        Some(x) => Ok(x),
        None => Err(Fault::BadNumber),
    }
}

/// A register.
#[inline(always)]
pub fn take_register(words: &mut Words<'_>) -> Result<u8, Fault>
    ensures ok { IfOk result (λ r. register_in words.old ≡ Ok (r, words.new)) }
    ensures within { IfOk result (λ r. r < 16) }
    ensures err { IfErr result (λ fault. register_in words.old ≡ Err fault) }
{
    match register(take_word(words)?) {
        Some(r) => Ok(r),
        None => Err(Fault::Register),
    }
}

/// A cell, of which there are so many.
#[inline(always)]
pub fn take_cell(words: &mut Words<'_>, cells: u32) -> Result<u32, Fault>
    ensures ok { IfOk result (λ c. cell_in cells words.old ≡ Ok (c, words.new)) }
    ensures within { IfOk result (λ c. c < cells) }
    ensures err { IfErr result (λ fault. cell_in cells words.old ≡ Err fault) }
{
    let n = take_number(words)?;
    if n < 0 || n >= i64::from(cells) {
        return Err(Fault::CellRange);
    }
    Ok(n as u32)
}

/// The name of a body.
pub fn take_body<'a>(words: &mut Words<'a>) -> Result<&'a [u8], Fault>
    ensures ok { IfOk result (λ word. body_in words.old ≡ Ok (word.now, words.new)) }
    ensures err { IfErr result (λ fault. body_in words.old ≡ Err fault) }
{
    let word = take_word(words)?;
    if is_name(word) {
        Ok(word)
    } else {
        Err(Fault::UnknownWord)
    }
}

/// A dependence type.
fn take_kind(words: &mut Words<'_>) -> Result<Kind, Fault>
    ensures ok { IfOk result (λ k. kind_in words.old ≡ Ok (k, words.new)) }
    ensures err { IfErr result (λ fault. kind_in words.old ≡ Err fault) }
{
    match kind(take_word(words)?) {
        Some(kind) => Ok(kind),
        None => Err(Fault::DependType),
    }
}

/// A dependence type that the line may name.
pub fn take_type(words: &mut Words<'_>, on_wait: bool) -> Result<Kind, Fault>
    ensures ok { IfOk result (λ k. type_in on_wait words.old ≡ Ok (k, words.new)) }
    ensures err { IfErr result (λ fault. type_in on_wait words.old ≡ Err fault) }
{
    let kind = take_kind(words)?;
    if on_wait && kind == Kind::Mutexinoutset {
        return Err(Fault::DependType);
    }
    Ok(kind)
}

/// The name of a task.
pub fn take_task(alloc: Global, words: &mut Words<'_>) -> Result<TaskName, Unread>
    ensures ok { IfOk result (λ t. task_in words.old ≡ Ok (t, words.new)) }
    ensures err { (fault : TheFault) → result ≡ Err (Faulty fault) → task_in words.old ≡ Err fault }
{
    let word = take_word(words)?;
    match read_task(alloc, word)? {
        Some(task) => Ok(task),
        None => Err(Unread::Faulty(Fault::BadName)),
    }
}

/// The name of a step.
#[inline(always)]
pub fn take_id(alloc: Global, words: &mut Words<'_>) -> Result<Id, Unread>
    ensures ok { IfOk result (λ id. id_in words.old ≡ Ok (id, words.new)) }
    ensures err { (fault : TheFault) → result ≡ Err (Faulty fault)
        → id_in words.old ≡ Err fault }
    ensures memory { result ≡ Err Memory → IsTrue (id_takes words.old) }
{
    match plain_id(alloc, words.bytes()) {
        Some((id, rest)) => {
            *words = Words::of(rest);
            Ok(id)
        }
        None => any_id(alloc, words),
    }
}

/// The name of a step, however it is spelled.
// out of line: a plain one doesn't pay for its stack frame
#[inline(never)]
fn any_id(alloc: Global, words: &mut Words<'_>) -> Result<Id, Unread>
    ensures ok { IfOk result (λ id. id_in words.old ≡ Ok (id, words.new)) }
    ensures err { (fault : TheFault) → result ≡ Err (Faulty fault)
        → id_in words.old ≡ Err fault }
    ensures memory { result ≡ Err Memory → IsTrue (id_takes words.old) }
{
    let word = take_word(words)?;
    match read_id(alloc, word)? {
        Some(id) => Ok(id),
        None => Err(Unread::Faulty(Fault::BadName)),
    }
}

/// Whether the next word is this one, which is taken then.
pub fn take_if(words: &mut Words<'_>, expected: &[u8]) -> bool
    ensures next { result ≡ begins expected.now words.old }
    ensures rest { words.new ≡ (if result then drop 1 words.old else words.old) }
{
    match words.peek() {
        Some(word) if same_word(word, expected) => {
            let _ = words.next();
            true
        }
        _ => false,
    }
}
