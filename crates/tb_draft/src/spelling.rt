//! Spells names as they are written.

ghost use Rattle.std.specs.Prelude.{◌≡◌, ◌+◌, ◌++◌, ◌-◌, ◌∷◌, ◌<◌, ◌^◌, OnErr, OnOk, decimal};
ghost use Rattle.tb_model.specs.Spelling.{levels_text, name_text};
ghost use Rattle.tb_draft.specs.Passages.{passage_text, passages_text};
ghost use Rattle.tb_draft.specs.Written.{Told, WroteFront};

use crate::passage::Passage;
use crate::waiting::{ROOM, put};
use arrayvec::ArrayVec;
use itoa::Buffer;
use tb_lines::{Failed, Sink};
use tb_model::{TaskName, digit_levels, digits_at};

fn put_level<K: Sink>(sink: &mut K, waiting: &mut ArrayVec<u8, ROOM>, n: u32) -> Result<(), Failed>
    requires { K.failures sink.old < 2 ^ 64 - 1 }
    ensures ok { OnOk result (Told (K.taken sink.old) (K.taken sink.new) waiting.new.items
        (λ all. all ≡ waiting.old.items ++ 46 ∷ decimal n) × (K.failures sink.new ≡ K.failures sink.old)) }
    ensures err { OnErr result (WroteFront (K.taken sink.old) (K.taken sink.new) (waiting.old.items ++ 46 ∷ decimal n)
        × (K.failures sink.new ≡ K.failures sink.old + 1)) }
{
    put(sink, waiting, b".")?;
    put(sink, waiting, Buffer::new().format(n).as_bytes())?;
    Ok(())
}

/// Puts the levels of these ordinals, of which the last comes first.
fn put_levels<K: Sink>(
    sink: &mut K,
    waiting: &mut ArrayVec<u8, ROOM>,
    numbers: &[u32],
) -> Result<(), Failed>
    requires { K.failures sink.old < 2 ^ 64 - 1 }
    ensures ok { OnOk result (Told (K.taken sink.old) (K.taken sink.new) waiting.new.items
        (λ all. all ≡ waiting.old.items ++ levels_text numbers.now) × (K.failures sink.new ≡ K.failures sink.old)) }
    ensures err { OnErr result (WroteFront (K.taken sink.old) (K.taken sink.new) (waiting.old.items ++ levels_text numbers.now)
        × (K.failures sink.new ≡ K.failures sink.old + 1)) }
{
    let mut rest = numbers;
    'levels: while let [front @ .., n] = rest {
        match digits_at(rest) {
            Some(at) => {
                put(sink, waiting, &digit_levels(&rest[at..]))?;
                rest = &rest[..at];
            }
            None => {
                put_level(sink, waiting, *n)?;
                rest = front;
            }
        }
    }
    Ok(())
}

/// Puts the name.
fn put_name<K: Sink>(
    sink: &mut K,
    waiting: &mut ArrayVec<u8, ROOM>,
    name: &TaskName,
) -> Result<(), Failed>
    requires { K.failures sink.old < 2 ^ 64 - 1 }
    ensures ok { OnOk result (Told (K.taken sink.old) (K.taken sink.new) waiting.new.items
        (λ all. all ≡ waiting.old.items ++ name_text name.now) × (K.failures sink.new ≡ K.failures sink.old)) }
    ensures err { OnErr result (WroteFront (K.taken sink.old) (K.taken sink.new) (waiting.old.items ++ name_text name.now)
        × (K.failures sink.new ≡ K.failures sink.old + 1)) }
{
    put(sink, waiting, b"0")?;
    let mut parts = name.parts();
    'spelled: while let Some((_, text)) = parts.take_spelled() {
        put(sink, waiting, text)?;
    }
    let mut run = parts.take_run();
    'runs: while !run.as_slice().is_empty() {
        put_levels(sink, waiting, run.as_slice())?;
        run = parts.take_run();
    }
    Ok(())
}

fn put_passage<K: Sink>(
    sink: &mut K,
    waiting: &mut ArrayVec<u8, ROOM>,
    passage: &Passage,
) -> Result<(), Failed>
    requires { K.failures sink.old < 2 ^ 64 - 1 }
    ensures ok { OnOk result (Told (K.taken sink.old) (K.taken sink.new) waiting.new.items
        (λ all. all ≡ waiting.old.items ++ passage_text passage.now) × (K.failures sink.new ≡ K.failures sink.old)) }
    ensures err { OnErr result (WroteFront (K.taken sink.old) (K.taken sink.new) (waiting.old.items ++ passage_text passage.now)
        × (K.failures sink.new ≡ K.failures sink.old + 1)) }
{
    put(sink, waiting, passage.text.as_bytes())?;
    put_name(sink, waiting, &passage.name)?;
    Ok(())
}

/// Puts the passages, one after another.
pub(crate) fn put_passages<K: Sink>(
    sink: &mut K,
    waiting: &mut ArrayVec<u8, ROOM>,
    passages: &[Passage],
) -> Result<(), Failed>
    requires { K.failures sink.old < 2 ^ 64 - 1 }
    ensures ok { OnOk result (Told (K.taken sink.old) (K.taken sink.new) waiting.new.items
        (λ all. all ≡ waiting.old.items ++ passages_text passages.now) × (K.failures sink.new ≡ K.failures sink.old)) }
    ensures err { OnErr result (WroteFront (K.taken sink.old) (K.taken sink.new) (waiting.old.items ++ passages_text passages.now)
        × (K.failures sink.new ≡ K.failures sink.old + 1)) }
{
    'passages: for passage in passages {
        put_passage(sink, waiting, passage)?;
    }
    Ok(())
}
